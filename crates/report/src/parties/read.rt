// Reads the parties of a report from a slip.
ghost use Rattle.std.specs.Prelude.{◌≡◌, IfOk, IfErr, IfSome, is_err};
ghost use Rattle.std.specs.Option.{option_map};
ghost use Rattle.std.specs.Result.{result_err};
ghost use Rattle.refusals.specs.declared.refusal.Refusal.TheVariants.{BadField};
ghost use Rattle.refusals.specs.declared.tag.Tag.TheVariants.{OtherKind};
ghost use Rattle.fields.specs.Fields.{party_kind_letter, party_kind_letters};
ghost use Rattle.fields.specs.Letters.{letter_in};
ghost use Rattle.slip.specs.Fields.{fields_of};
ghost use Rattle.report.specs.Judging.{AllThere, always_needed, bad, first_bad, kind_told, party_tags};
ghost use Rattle.report.specs.Texts.{Says, text_in};
ghost use Rattle.report.specs.Values.{TellsParties};

use super::Parties;
use crate::values::{code, letter, party};
use fields::field::report::PartyKind;
use refusals::refusal::Refusal;
use refusals::tag::Tag;
use slip::slip::Slip;

// The kind of the other counterparty.
#[tactic(auto, using(crate::proofs::PartyKinds::kind_read))]
fn party_kind(slip: &Slip) -> Result<Option<PartyKind>, Refusal>
    ensures value { IfOk result (Says (letter_in party_kind_letters) party_kind_letter (text_in (fields_of slip.now) OtherKind)) }
    ensures told { IfOk result (λ kind. IfSome kind (λ k. kind_told (text_in (fields_of slip.now) OtherKind) ≡ k)) }
    ensures bad { is_err result ≡ bad (text_in (fields_of slip.now)) OtherKind }
    ensures refusal { IfErr result (λ e. e ≡ BadField OtherKind) }
{
    letter(slip, Tag::OtherKind)
}

impl Parties {
    // The parties that a slip says; the first bad field of theirs is refused. All are there in a slip that has what every
    // report needs.
    #[tactic(auto, unfolding(crate::specs::Judging::party_tags))]
    pub(crate) fn read(slip: &Slip) -> Result<Parties, Refusal>
        ensures value { IfOk result (TellsParties (text_in (fields_of slip.now))) }
        ensures refusal { AllThere (text_in (fields_of slip.now)) always_needed → result_err result ≡ option_map BadField (first_bad (text_in (fields_of slip.now)) party_tags) }
    {
        let Some(trade) = code(slip, Tag::TradeId)? else {
            return Err(Refusal::FieldMissing(Tag::TradeId));
        };
        let Some(reporter) = code(slip, Tag::ReportingCounterparty)? else {
            return Err(Refusal::FieldMissing(Tag::ReportingCounterparty));
        };
        let Some(kind) = party_kind(slip)? else {
            return Err(Refusal::FieldMissing(Tag::OtherKind));
        };
        // by the kind that the same slip gives for it
        let Some(other) = party(slip, Tag::OtherCounterparty, kind)? else {
            return Err(Refusal::FieldMissing(Tag::OtherCounterparty));
        };
        let Some(country) = code(slip, Tag::OtherCountry)? else {
            return Err(Refusal::FieldMissing(Tag::OtherCountry));
        };
        Ok(Parties {
            trade,
            reporter,
            other,
            country,
        })
    }
}
