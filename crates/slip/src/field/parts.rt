// The tag of a field, and the part of the slip that tells it.
ghost use Rattle.std.specs.Prelude.{◌≡◌};
ghost use Rattle.refusals.specs.Words.{tag_number};
ghost use Rattle.slip.specs.Fields.{field_of, told};

use super::{Field, Part};
use refusals::tag::Tag;

impl<'s> Field<'s> {
    pub fn new(tag: Tag, part: Part<'s>) -> Field<'s>
        ensures { field_of result ≡ told (tag_number tag) part.entry }
    {
        match tag {
            Tag::TradeId => Field::TradeId(part),
            Tag::ReportingCounterparty => Field::ReportingCounterparty(part),
            Tag::OtherKind => Field::OtherKind(part),
            Tag::OtherCounterparty => Field::OtherCounterparty(part),
            Tag::OtherCountry => Field::OtherCountry(part),
            Tag::Action => Field::Action(part),
            Tag::Level => Field::Level(part),
            Tag::EligibleDate => Field::EligibleDate(part),
            Tag::Side => Field::Side(part),
            Tag::ProductIdKind => Field::ProductIdKind(part),
            Tag::ProductId => Field::ProductId(part),
            Tag::UnderlyingKind => Field::UnderlyingKind(part),
            Tag::UnderlyingId => Field::UnderlyingId(part),
            Tag::NotionalCurrency1 => Field::NotionalCurrency1(part),
            Tag::NotionalCurrency2 => Field::NotionalCurrency2(part),
            Tag::Venue => Field::Venue(part),
            Tag::Compression => Field::Compression(part),
            Tag::Price => Field::Price(part),
            Tag::PriceNotation => Field::PriceNotation(part),
            Tag::PriceCurrency => Field::PriceCurrency(part),
            Tag::Notional => Field::Notional(part),
            Tag::ExecutionTimestamp => Field::ExecutionTimestamp(part),
            Tag::ClearingTimestamp => Field::ClearingTimestamp(part),
            Tag::ExchangeRate1 => Field::ExchangeRate1(part),
            Tag::Valuation => Field::Valuation(part),
        }
    }

    pub fn tag(&self) -> Tag
        ensures { tag_number result ≡ (field_of self.now).tag }
    {
        match self {
            Field::TradeId(_) => Tag::TradeId,
            Field::ReportingCounterparty(_) => Tag::ReportingCounterparty,
            Field::OtherKind(_) => Tag::OtherKind,
            Field::OtherCounterparty(_) => Tag::OtherCounterparty,
            Field::OtherCountry(_) => Tag::OtherCountry,
            Field::Action(_) => Tag::Action,
            Field::Level(_) => Tag::Level,
            Field::EligibleDate(_) => Tag::EligibleDate,
            Field::Side(_) => Tag::Side,
            Field::ProductIdKind(_) => Tag::ProductIdKind,
            Field::ProductId(_) => Tag::ProductId,
            Field::UnderlyingKind(_) => Tag::UnderlyingKind,
            Field::UnderlyingId(_) => Tag::UnderlyingId,
            Field::NotionalCurrency1(_) => Tag::NotionalCurrency1,
            Field::NotionalCurrency2(_) => Tag::NotionalCurrency2,
            Field::Venue(_) => Tag::Venue,
            Field::Compression(_) => Tag::Compression,
            Field::Price(_) => Tag::Price,
            Field::PriceNotation(_) => Tag::PriceNotation,
            Field::PriceCurrency(_) => Tag::PriceCurrency,
            Field::Notional(_) => Tag::Notional,
            Field::ExecutionTimestamp(_) => Tag::ExecutionTimestamp,
            Field::ClearingTimestamp(_) => Tag::ClearingTimestamp,
            Field::ExchangeRate1(_) => Tag::ExchangeRate1,
            Field::Valuation(_) => Tag::Valuation,
        }
    }

    // The text, and the place of its first byte in the slip's text.
    pub fn part(&self) -> Part<'s>
        ensures place { result.place ≡ (field_of self.now).place }
        ensures text { result.text.now ≡ (field_of self.now).text }
    {
        match self {
            Field::TradeId(part)
            | Field::ReportingCounterparty(part)
            | Field::OtherKind(part)
            | Field::OtherCounterparty(part)
            | Field::OtherCountry(part)
            | Field::Action(part)
            | Field::Level(part)
            | Field::EligibleDate(part)
            | Field::Side(part)
            | Field::ProductIdKind(part)
            | Field::ProductId(part)
            | Field::UnderlyingKind(part)
            | Field::UnderlyingId(part)
            | Field::NotionalCurrency1(part)
            | Field::NotionalCurrency2(part)
            | Field::Venue(part)
            | Field::Compression(part)
            | Field::Price(part)
            | Field::PriceNotation(part)
            | Field::PriceCurrency(part)
            | Field::Notional(part)
            | Field::ExecutionTimestamp(part)
            | Field::ClearingTimestamp(part)
            | Field::ExchangeRate1(part)
            | Field::Valuation(part) => *part,
        }
    }
}
