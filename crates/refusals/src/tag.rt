// The fields of a report, by the tags that name them.
ghost use Rattle.std.specs.Prelude.{◌≡◌, Some, None, decimal, if◌then◌else◌};
ghost use Rattle.std.specs.Option.{option_map};
ghost use Rattle.refusals.specs.Words.{is_tag, tag_number};

use std::fmt;

// The fields of a report, each by the number that names it in a slip.
#[derive(Clone, Copy, Debug, PartialEq, Eq)]
pub enum Tag {
    TradeId = 1,
    ReportingCounterparty = 2,
    OtherKind = 3,
    OtherCounterparty = 4,
    OtherCountry = 5,
    Action = 6,
    Level = 7,
    EligibleDate = 8,
    Side = 9,
    ProductIdKind = 10,
    ProductId = 11,
    UnderlyingKind = 12,
    UnderlyingId = 13,
    NotionalCurrency1 = 14,
    NotionalCurrency2 = 15,
    Venue = 16,
    Compression = 17,
    Price = 18,
    PriceNotation = 19,
    PriceCurrency = 20,
    Notional = 21,
    ExecutionTimestamp = 22,
    ClearingTimestamp = 23,
    ExchangeRate1 = 24,
    Valuation = 25,
}

impl Tag {
    // The field that a number names.
    pub fn of_number(number: u8) -> Option<Tag>
        ensures { option_map tag_number result ≡ (if is_tag number then Some number else None) }
    {
        Some(match number {
            1 => Tag::TradeId,
            2 => Tag::ReportingCounterparty,
            3 => Tag::OtherKind,
            4 => Tag::OtherCounterparty,
            5 => Tag::OtherCountry,
            6 => Tag::Action,
            7 => Tag::Level,
            8 => Tag::EligibleDate,
            9 => Tag::Side,
            10 => Tag::ProductIdKind,
            11 => Tag::ProductId,
            12 => Tag::UnderlyingKind,
            13 => Tag::UnderlyingId,
            14 => Tag::NotionalCurrency1,
            15 => Tag::NotionalCurrency2,
            16 => Tag::Venue,
            17 => Tag::Compression,
            18 => Tag::Price,
            19 => Tag::PriceNotation,
            20 => Tag::PriceCurrency,
            21 => Tag::Notional,
            22 => Tag::ExecutionTimestamp,
            23 => Tag::ClearingTimestamp,
            24 => Tag::ExchangeRate1,
            25 => Tag::Valuation,
            _ => return None,
        })
    }
}

impl From<Tag> for u8 {
    ghost from_gives = { λ tag n. n ≡ tag_number tag };

    fn from(tag: Tag) -> u8 {
        tag as u8
    }
}

impl fmt::Display for Tag {
    ghost output = { λ tag. Some (decimal (tag_number tag)) };

    fn fmt<W: fmt::Write>(&self, f: &mut fmt::Formatter<W>) -> fmt::Result {
        let number = u8::from(*self);
        write!(f, "{number}")
    }
}
