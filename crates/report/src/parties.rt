// The parties of a report, and its trade.
pub mod read;

use codes::code::{Country, Lei, TradeId};
use fields::party::OtherParty;

// Who reports on which trade, and with whom it was made.
#[derive(Clone, Copy)]
pub struct Parties {
    pub trade: TradeId,
    pub reporter: Lei,
    pub other: OtherParty,
    // the other party's
    pub country: Country,
}
