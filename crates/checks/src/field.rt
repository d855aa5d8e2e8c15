// The compared fields.
ghost use Rattle.std.specs.Prelude.{◌≡◌, slice_get};
ghost use Rattle.checks.specs.Values.{compared_fields};

// The fields that two reports can be compared by, each with its position in a sheet and the number that KDPW gives it.
#[derive(Clone, Copy, Debug, PartialEq, Eq)]
pub enum Field {
    // 1: the side of the reporting counterparty
    Side,
    // 2: 2.6, the product id
    ProductId,
    // 3: 2.7, the type of the underlying
    UnderlyingKind,
    // 4: 2.8, the id of the underlying
    UnderlyingId,
    // 5: 2.9
    NotionalCurrency1,
    // 6: 2.10
    NotionalCurrency2,
    // 7: 2.15, the venue of execution
    Venue,
    // 8: 2.16
    Compression,
    // 9: 2.17
    Price,
    // 10: 2.18
    PriceNotation,
    // 11: 2.19, the currency of the price
    PriceCurrency,
    // 12: 2.20
    Notional,
    // 13: 2.25
    ExecutionTimestamp,
    // 14: 2.36
    ClearingTimestamp,
    // 15: 2.62
    ExchangeRate1,
}

// The compared fields, by their positions.
pub const COMPARED: [Field; 15] = [
    Field::Side,
    Field::ProductId,
    Field::UnderlyingKind,
    Field::UnderlyingId,
    Field::NotionalCurrency1,
    Field::NotionalCurrency2,
    Field::Venue,
    Field::Compression,
    Field::Price,
    Field::PriceNotation,
    Field::PriceCurrency,
    Field::Notional,
    Field::ExecutionTimestamp,
    Field::ClearingTimestamp,
    Field::ExchangeRate1,
];

impl Field {
    // The field at a place, counted from 0 as sheets count.
    pub fn at(place: usize) -> Option<Field>
        ensures { result ≡ slice_get compared_fields place }
    {
        COMPARED.get(place).copied()
    }
}
