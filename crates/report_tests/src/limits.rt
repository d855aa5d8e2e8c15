// Texts at the ends of their rules, and the values that are read from them.
use crate::said::differing;
use crate::slips::{FULL, slip, with};
use amounts::amount::Amount;
use calendar::date::Date;
use fields::field::detail::{Compression, PriceNotation, ProductIdKind, Side, UnderlyingKind};
use fields::field::report::{Action, Level, PartyKind};
use report::report::Report;
use std::alloc::{AllocError, Global};
use std::test::Fail;
use timestamps::timestamp::Timestamp;

// The longest text at every tag, 371 bytes in all.
pub const LONGEST: &[(u8, &[u8])] = &[
    (1, b"A234567890123456789012345678901234567890123456.-_:z9"),
    (2, b"ZZ9400LUPUA1BSPB4X99"),
    (3, b"L"),
    (4, b"00000000000000000195"),
    (5, b"PL"),
    (6, b"N"),
    (7, b"P"),
    (8, b"2099-12-31"),
    (9, b"S"),
    (10, b"A"),
    (
        11,
        b" ~345678901234567890123456789012345678901234567890123456789012~ ",
    ),
    (12, b"X"),
    (
        13,
        b"~ 345678901234567890123456789012345678901234567890123456789012 ~",
    ),
    (14, b"ZZZ"),
    (15, b"AAA"),
    (16, b"360T"),
    (17, b"Y"),
    (18, b"-9.9999999999999999999"),
    (19, b"P"),
    (20, b"XXX"),
    (21, b"-9876543210.9876543219"),
    (22, b"2099-12-31T23:59:59Z"),
    (23, b"2000-02-29T00:00:01Z"),
    (24, b"-9.999999999"),
    (25, b"-0.0000000000000000001"),
];

// The shortest text at every tag.
pub const SHORTEST: &[(u8, &[u8])] = &[
    (1, b"7"),
    (2, b"00000000000000000000"),
    (3, b"C"),
    (4, b"K"),
    (5, b"AA"),
    (6, b"P"),
    (7, b"T"),
    (8, b"2000-01-01"),
    (9, b"B"),
    (10, b"I"),
    (11, b" "),
    (12, b"U"),
    (13, b"~"),
    (14, b"AAA"),
    (15, b"ZZZ"),
    (16, b"0000"),
    (17, b"N"),
    (18, b"0"),
    (19, b"Y"),
    (20, b"AAA"),
    (21, b"9"),
    (22, b"2000-01-01T00:00:00Z"),
    (23, b"2000-01-01T00:00:00Z"),
    (24, b"1"),
    (25, b"5"),
];

fn is_printed(heap: Global, amount: Option<Amount>, text: &str) -> Result<bool, AllocError> {
    let Some(amount) = amount else {
        return Ok(false);
    };
    Ok(format!(in heap; "{amount}")?.as_str() == text)
}

fn is_at(time: Option<Timestamp>, year: u16, month: u8, day: u8, second: u32) -> bool {
    time.is_some_and(|time| {
        Some(time.date()) == Date::new(year, month, day) && time.second_of_day() == second
    })
}

// The cases, days and times of the longest texts.
fn says_longest(report: &Report) -> bool {
    let details = report.details;
    report.parties.other.kind() == PartyKind::Lei
        && report.action == Action::New
        && matches!(report.level, Some(Level::Position))
        && report.eligible == Date::new(2099, 12, 31)
        && matches!(details.side, Some(Side::Seller))
        && matches!(details.product_id_kind, Some(ProductIdKind::Aii))
        && matches!(details.underlying_kind, Some(UnderlyingKind::Index))
        && matches!(details.compression, Some(Compression::Compressed))
        && matches!(details.price_notation, Some(PriceNotation::Percentage))
        && is_at(details.executed, 2099, 12, 31, 86_399)
        && is_at(details.cleared, 2000, 2, 29, 1)
}

// Those of the shortest texts.
fn says_shortest(report: &Report) -> bool {
    let details = report.details;
    report.parties.other.kind() == PartyKind::Client
        && report.action == Action::PositionComponent
        && matches!(report.level, Some(Level::Trade))
        && report.eligible == Date::new(2000, 1, 1)
        && matches!(details.side, Some(Side::Buyer))
        && matches!(details.product_id_kind, Some(ProductIdKind::Isin))
        && matches!(details.underlying_kind, Some(UnderlyingKind::Upi))
        && matches!(details.compression, Some(Compression::Uncompressed))
        && matches!(details.price_notation, Some(PriceNotation::Yield))
        && is_at(details.executed, 2000, 1, 1, 0)
        && is_at(details.cleared, 2000, 1, 1, 0)
}

#[test]
fn the_longest_texts_are_read(rt: HostRuntime) -> Result<(), Fail> {
    let heap = rt.alloc();
    let Ok(report) = Report::read(&slip(heap, LONGEST)?) else {
        return Err(Fail::new("refused"));
    };
    assert_eq!(rt; differing(&report, LONGEST), None);
    assert!(rt; says_longest(&report));
    let details = report.details;
    let rate = details.exchange_rate_1.map(|rate| rate.amount());
    let price = is_printed(heap, details.price, "-9.9999999999999999999")?;
    let notional = is_printed(heap, details.notional, "-9876543210.9876543219")?;
    let rate = is_printed(heap, rate, "-9.999999999")?;
    let valuation = is_printed(heap, report.valuation, "-0.0000000000000000001")?;
    assert!(rt; price && notional && rate && valuation);
    Ok(())
}

#[test]
fn the_shortest_texts_are_read(rt: HostRuntime) -> Result<(), Fail> {
    let heap = rt.alloc();
    let Ok(report) = Report::read(&slip(heap, SHORTEST)?) else {
        return Err(Fail::new("refused"));
    };
    assert_eq!(rt; differing(&report, SHORTEST), None);
    assert!(rt; says_shortest(&report));
    Ok(())
}

// Tags and texts, and the text that says the same: for an amount the shortest, else the text itself.
pub const VALUES: &[(&[u8], &[u8], &[u8])] = &[
    (&[1], b"A", b"A"),
    (&[1], b"z", b"z"),
    (&[1], b"a:_-.9", b"a:_-.9"),
    (&[1, 11, 13], b"A--..__::B", b"A--..__::B"),
    (&[2, 4], b"00000000000000000000", b"00000000000000000000"),
    (&[2, 4], b"ZZZZZZZZZZZZZZZZZZZZ", b"ZZZZZZZZZZZZZZZZZZZZ"),
    (&[5], b"AA", b"AA"),
    (&[5], b"ZZ", b"ZZ"),
    (&[6], b"N", b"N"),
    (&[6, 7, 19], b"P", b"P"),
    (&[6], b"M", b"M"),
    (&[6], b"R", b"R"),
    (&[6], b"V", b"V"),
    (&[6], b"C", b"C"),
    (&[6], b"Z", b"Z"),
    (&[6], b"E", b"E"),
    (&[7], b"T", b"T"),
    (&[9, 12], b"B", b"B"),
    (&[9], b"S", b"S"),
    (&[10, 12], b"I", b"I"),
    (&[10, 12], b"A", b"A"),
    (&[12, 19], b"U", b"U"),
    (&[12], b"X", b"X"),
    (&[17, 19], b"Y", b"Y"),
    (&[17], b"N", b"N"),
    (&[8], b"2000-01-01", b"2000-01-01"),
    (&[8], b"2000-02-29", b"2000-02-29"),
    (&[8], b"2024-02-29", b"2024-02-29"),
    (&[8], b"2099-12-31", b"2099-12-31"),
    (&[11, 13], b" A B ", b" A B "),
    (&[11, 13], b"!\"#$%&'()*+,-./", b"!\"#$%&'()*+,-./"),
    (&[11, 13], b":;<=>?@[\\]^_`{|}", b":;<=>?@[\\]^_`{|}"),
    (&[14, 15, 20], b"AAA", b"AAA"),
    (&[14, 15, 20], b"ZZZ", b"ZZZ"),
    (&[16], b"XXXX", b"XXXX"),
    (&[16], b"XOFF", b"XOFF"),
    (&[16], b"0000", b"0000"),
    (&[16], b"9ZZ9", b"9ZZ9"),
    (&[22, 23], b"2000-01-01T00:00:00Z", b"2000-01-01T00:00:00Z"),
    (&[22, 23], b"2024-02-29T23:59:59Z", b"2024-02-29T23:59:59Z"),
    (&[22, 23], b"2099-12-31T00:59:00Z", b"2099-12-31T00:59:00Z"),
    (&[18, 21, 24, 25], b"0", b"0"),
    (&[18, 21, 24, 25], b"-0", b"0"),
    (&[18, 21, 24, 25], b"-0.00", b"0"),
    (&[18, 21, 24, 25], b"1.50", b"1.5"),
    (&[18, 21, 24, 25], b"-007.250", b"-7.25"),
    (&[18, 21, 24, 25], b"007.10", b"7.1"),
    (&[18, 21, 24, 25], b"10", b"10"),
    (&[18, 21, 24, 25], b"100.0", b"100"),
    (&[18, 21, 24, 25], b"0000000001", b"1"),
    (&[18, 21, 24, 25], b"0.000000000", b"0"),
    (&[18, 21, 24, 25], b"0.000000001", b"0.000000001"),
    (&[18, 21, 24, 25], b"9999999999", b"9999999999"),
    (&[18, 21, 24, 25], b"-9999999999", b"-9999999999"),
    (&[18, 21, 24, 25], b"4.250000000", b"4.25"),
    (&[18, 21, 25], b"00000000001", b"1"),
    (&[18, 21, 25], b"12345678901", b"12345678901"),
    (&[18, 21, 25], b"-1234567890.1", b"-1234567890.1"),
    (&[18, 21, 25], b"0.1234567890", b"0.123456789"),
    (&[18, 21, 25], b"1.0000000000", b"1"),
    (&[18, 21, 25], b"00000000000000000100", b"100"),
    (&[18, 21, 25], b"-00000000000000000100", b"-100"),
    (&[18, 21, 25], b"0.0000000000000000000", b"0"),
    (
        &[18, 21, 25],
        b"99999999999999999999",
        b"99999999999999999999",
    ),
    (
        &[18, 21, 25],
        b"-99999999999999999999",
        b"-99999999999999999999",
    ),
    (
        &[18, 21, 25],
        b"0.0000000000000000001",
        b"0.0000000000000000001",
    ),
    (
        &[18, 21, 25],
        b"9999999999.9999999999",
        b"9999999999.9999999999",
    ),
];

// Whether a report with this text at this tag is read, and says this there.
fn is_read(heap: Global, tag: u8, text: &[u8], said: &[u8]) -> Result<bool, AllocError> {
    match Report::read(&slip(heap, &with(heap, FULL, tag, text)?)?) {
        Ok(report) => Ok(differing(&report, &with(heap, FULL, tag, said)?).is_none()),
        Err(_) => Ok(false),
    }
}

#[test]
fn values_are_read(rt: HostRuntime) -> Result<(), Fail> {
    let heap = rt.alloc();
    for (tags, text, said) in VALUES {
        for tag in *tags {
            let read = is_read(heap, *tag, text, said)?;
            assert!(rt; read, "tag {tag}: {}", text.escape_ascii());
        }
    }
    Ok(())
}
