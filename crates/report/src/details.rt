// The details of a trade or position.
pub mod accessors;
pub mod read;

use amounts::amount::Amount;
use amounts::amount::rate::ExchangeRate;
use codes::code::{Currency, ProductId, UnderlyingId, Venue};
use fields::field::detail::{Compression, PriceNotation, ProductIdKind, Side, UnderlyingKind};
use timestamps::timestamp::Timestamp;

// What two sides compare, and what says how. A side may leave out each of them.
#[derive(Clone, Copy)]
pub struct Details {
    pub side: Option<Side>,
    pub product_id_kind: Option<ProductIdKind>,
    pub product_id: Option<ProductId>,
    pub underlying_kind: Option<UnderlyingKind>,
    pub underlying_id: Option<UnderlyingId>,
    pub notional_currency_1: Option<Currency>,
    pub notional_currency_2: Option<Currency>,
    pub venue: Option<Venue>,
    pub compression: Option<Compression>,
    pub price: Option<Amount>,
    pub price_notation: Option<PriceNotation>,
    pub price_currency: Option<Currency>,
    pub notional: Option<Amount>,
    pub executed: Option<Timestamp>,
    pub cleared: Option<Timestamp>,
    pub exchange_rate_1: Option<ExchangeRate>,
}
