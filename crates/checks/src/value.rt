// The values that checks compare.
ghost use Rattle.std.specs.Prelude.{◌≡◌};
ghost use Rattle.std.specs.Option.{option_map};
ghost use Rattle.checks.specs.Values.{told, value_of};

use crate::field::Field;
use amounts::amount::Amount;
use fields::field::detail::Side;
use fields::letter::Letter;
use report::details::Details;
use timestamps::timestamp::Timestamp;

// The value of a field, whichever it is. A side is one of two cases, since it can be asked for its opposite; of the other
// one-letter fields only the letter counts. Texts are borrowed, since they are the long ones.
#[derive(Clone, Copy)]
pub enum Value<'d> {
    Side(Side),
    Letter(u8),
    Text(&'d [u8]),
    Amount(Amount),
    Timestamp(Timestamp),
}

// The value of a field, if the details have it.
pub fn value_of<'d>(field: Field, details: &'d Details) -> Option<Value<'d>>
    ensures { option_map told result ≡ value_of field details.now }
{
    match field {
        Field::Side => Some(Value::Side(details.side?)),
        Field::ProductId => Some(Value::Text(details.product_id_text()?)),
        Field::UnderlyingKind => Some(Value::Letter(details.underlying_kind?.letter())),
        Field::UnderlyingId => Some(Value::Text(details.underlying_id_text()?)),
        Field::NotionalCurrency1 => Some(Value::Text(details.notional_currency_1_text()?)),
        Field::NotionalCurrency2 => Some(Value::Text(details.notional_currency_2_text()?)),
        Field::Venue => Some(Value::Text(details.venue_text()?)),
        Field::Compression => Some(Value::Letter(details.compression?.letter())),
        Field::Price => Some(Value::Amount(details.price?)),
        Field::PriceNotation => Some(Value::Letter(details.price_notation?.letter())),
        Field::PriceCurrency => Some(Value::Text(details.price_currency_text()?)),
        Field::Notional => Some(Value::Amount(details.notional?)),
        Field::ExecutionTimestamp => Some(Value::Timestamp(details.executed?)),
        Field::ClearingTimestamp => Some(Value::Timestamp(details.cleared?)),
        Field::ExchangeRate1 => Some(Value::Amount(details.exchange_rate_1?.amount())),
    }
}
