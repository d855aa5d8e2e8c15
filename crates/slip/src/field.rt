// The fields of a slip, as parts of it.
pub mod parts;

// A part of a slip's text, and the place of its first byte in it.
#[derive(Clone, Copy)]
pub struct Part<'s> {
    pub text: &'s [u8],
    pub place: usize,
}

// A field of a report, as the part of the slip that tells it. What it tells is not judged yet.
#[derive(Clone, Copy)]
pub enum Field<'s> {
    TradeId(Part<'s>),
    ReportingCounterparty(Part<'s>),
    OtherKind(Part<'s>),
    OtherCounterparty(Part<'s>),
    OtherCountry(Part<'s>),
    Action(Part<'s>),
    Level(Part<'s>),
    EligibleDate(Part<'s>),
    Side(Part<'s>),
    ProductIdKind(Part<'s>),
    ProductId(Part<'s>),
    UnderlyingKind(Part<'s>),
    UnderlyingId(Part<'s>),
    NotionalCurrency1(Part<'s>),
    NotionalCurrency2(Part<'s>),
    Venue(Part<'s>),
    Compression(Part<'s>),
    Price(Part<'s>),
    PriceNotation(Part<'s>),
    PriceCurrency(Part<'s>),
    Notional(Part<'s>),
    ExecutionTimestamp(Part<'s>),
    ClearingTimestamp(Part<'s>),
    ExchangeRate1(Part<'s>),
    Valuation(Part<'s>),
}
