// The rules of all coded values, side by side.
ghost use Rattle.std.specs.Prelude.{◌≡◌};
ghost use Rattle.codes.specs.Values.{is_client_code, is_country, is_currency, is_identification, is_lei, is_trade_id, is_venue};

use super::{ClientCode, Country, Currency, Lei, ProductId, TradeId, UnderlyingId, Venue};

// For each value, whether a text spells it. One text can spell several, and callers ask for each by its name.
#[derive(Clone, Copy)]
pub struct Kinds {
    pub trade_id: bool,
    pub lei: bool,
    pub client_code: bool,
    pub country: bool,
    pub currency: bool,
    pub venue: bool,
    pub product_id: bool,
    pub underlying_id: bool,
}

// Which values a text spells.
pub fn kinds_of(text: &[u8]) -> Kinds
    ensures trade_id { result.trade_id ≡ is_trade_id text.now }
    ensures lei { result.lei ≡ is_lei text.now }
    ensures client_code { result.client_code ≡ is_client_code text.now }
    ensures country { result.country ≡ is_country text.now }
    ensures currency { result.currency ≡ is_currency text.now }
    ensures venue { result.venue ≡ is_venue text.now }
    ensures product_id { result.product_id ≡ is_identification text.now }
    ensures underlying_id { result.underlying_id ≡ is_identification text.now }
{
    Kinds {
        trade_id: TradeId::accepts(text),
        lei: Lei::accepts(text),
        client_code: ClientCode::accepts(text),
        country: Country::accepts(text),
        currency: Currency::accepts(text),
        venue: Venue::accepts(text),
        product_id: ProductId::accepts(text),
        underlying_id: UnderlyingId::accepts(text),
    }
}
