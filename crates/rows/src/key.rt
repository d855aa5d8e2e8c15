// What a row is found by.
ghost use Rattle.std.specs.Prelude.{◌≡◌};
ghost use Rattle.std.specs.Result.{result_map_both};
ghost use Rattle.refusals.specs.Words.{parts_of};
ghost use Rattle.rows.specs.Keys.{key_in, key_named, key_of, mirror};

use codes::code::{ClientCode, Lei, TradeId};
use refusals::refusal::Refusal;
use refusals::tag::Tag;
use report::parties::Parties;

// The trade, who reports it and with whom it was made. Both parties have the wider type, so that each can stand in the
// place of the other; of what kind a party is makes no difference to a key.
#[derive(Clone, Copy, PartialEq, Eq, PartialOrd, Ord)]
pub struct TradeKey {
    pub trade: TradeId,
    pub reporter: ClientCode,
    pub other: ClientCode,
}

impl TradeKey {
    // The key of a report.
    pub fn of(parties: &Parties) -> TradeKey
        ensures { key_of result ≡ key_in parties.now }
    {
        TradeKey {
            trade: parties.trade,
            reporter: ClientCode::from(parties.reporter),
            other: parties.other.code(),
        }
    }

    // The key that three texts name.
    pub fn read(trade: &[u8], reporter: &[u8], other: &[u8]) -> Result<TradeKey, Refusal>
        ensures { result_map_both key_of parts_of result ≡ key_named trade.now reporter.now other.now }
    {
        let Ok(trade) = TradeId::read(trade) else {
            return Err(Refusal::BadField(Tag::TradeId));
        };
        let Ok(reporter) = Lei::read(reporter) else {
            return Err(Refusal::BadField(Tag::ReportingCounterparty));
        };
        let Ok(other) = ClientCode::read(other) else {
            return Err(Refusal::BadField(Tag::OtherCounterparty));
        };
        Ok(TradeKey {
            trade,
            reporter: ClientCode::from(reporter),
            other,
        })
    }

    // The key of the counterparty's report of the same trade.
    pub fn mirror(&self) -> TradeKey
        ensures { key_of result ≡ mirror (key_of self.now) }
    {
        TradeKey {
            trade: self.trade,
            reporter: self.other,
            other: self.reporter,
        }
    }
}
