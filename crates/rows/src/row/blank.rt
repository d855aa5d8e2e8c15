// Rows of which nothing is made yet.
ghost use Rattle.std.specs.Prelude.{◌≡◌};
ghost use Rattle.std.specs.Str.{byte};
ghost use Rattle.codes.specs.Codes.{text_of};
ghost use Rattle.rows.specs.Blank.{IsBlank, NoTags, blank_key, no_details};
ghost use Rattle.rows.specs.Keys.{key_of};

use super::changes::uncompared;
use super::{Fate, Row, Tags};
use crate::key::TradeKey;
use crate::standing::Standing;
use crate::state::State;
use crate::tries::Tries;
use codes::code::{ClientCode, Country, TradeId};
use fields::field::report::{Action, PartyKind};
use report::details::Details;

// The details that say nothing.
fn no_details() -> Details
    ensures { result ≡ no_details }
{
    Details {
        side: None,
        product_id_kind: None,
        product_id: None,
        underlying_kind: None,
        underlying_id: None,
        notional_currency_1: None,
        notional_currency_2: None,
        venue: None,
        compression: None,
        price: None,
        price_notation: None,
        price_currency: None,
        notional: None,
        executed: None,
        cleared: None,
        exchange_rate_1: None,
    }
}

// The key that blank rows have, since every row has one.
pub fn no_key() -> TradeKey
    ensures { key_of result ≡ blank_key }
{
    TradeKey {
        trade: TradeId::read(b"0").unwrap(),
        reporter: ClientCode::read(b"0").unwrap(),
        other: ClientCode::read(b"0").unwrap(),
    }
}

fn no_tags() -> Tags
    ensures { NoTags result }
{
    Tags {
        other_kind: PartyKind::Client,
        country: Country::read(b"AA").unwrap(),
        action: Action::Error,
        level: None,
        eligible: None,
        details: no_details(),
        valuation: None,
    }
}

impl Row {
    // A row that stands in no book, or was freed.
    pub fn blank() -> Row
        ensures { IsBlank result }
    {
        Row {
            key: no_key(),
            tags: no_tags(),
            standing: Standing::Withdrawn,
            due: None,
            tries: Tries::none(),
            state: State::Gone,
            findings: uncompared(),
            settled: false,
            fate: Fate::Open,
        }
    }
}
