// The other counterparty of a report.
ghost use Rattle.std.specs.Prelude.{◌≡◌};
ghost use Rattle.std.specs.Option.{option_map};
ghost use Rattle.std.specs.Result.{result_ok};
ghost use Rattle.codes.specs.Codes.{text_of};
ghost use Rattle.fields.specs.Parties.{party_in, party_parts};

use crate::field::report::PartyKind;
use codes::code::read::NotACode;
use codes::code::{ClientCode, Lei};

// A counterparty, by its LEI or by a code for a client without one.
#[derive(Clone, Copy, PartialEq, Eq)]
pub enum OtherParty {
    Lei(Lei),
    Client(ClientCode),
}

impl OtherParty {
    // The party of this kind that a text names. By a match: the kind is read from the report, so it is a value and no type.
    pub fn read(kind: PartyKind, text: &[u8]) -> Result<OtherParty, NotACode>
        ensures { option_map party_parts (result_ok result) ≡ party_in kind text.now }
    {
        match kind {
            PartyKind::Lei => Ok(OtherParty::Lei(Lei::read(text)?)),
            PartyKind::Client => Ok(OtherParty::Client(ClientCode::read(text)?)),
        }
    }

    pub fn kind(&self) -> PartyKind
        ensures { result ≡ (party_parts self.now).kind }
    {
        match self {
            OtherParty::Lei(_) => PartyKind::Lei,
            OtherParty::Client(_) => PartyKind::Client,
        }
    }

    // The text that names the party.
    pub fn bytes(&self) -> &[u8]
        ensures { result.now ≡ (party_parts self.now).text }
    {
        match self {
            OtherParty::Lei(lei) => lei.bytes(),
            OtherParty::Client(code) => code.bytes(),
        }
    }

    // The text that names the party, as a code wide enough for either kind. No `From`: the name says what is left out.
    pub fn code(&self) -> ClientCode
        ensures { text_of result ≡ (party_parts self.now).text }
    {
        match self {
            OtherParty::Lei(lei) => ClientCode::from(*lei),
            OtherParty::Client(code) => *code,
        }
    }
}
