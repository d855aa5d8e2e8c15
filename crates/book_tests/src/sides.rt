// The two sides of a trade, what they send, and what a close of their day is given.
use book::book::Book;
use business::business_day::BusinessDay;
use codes::code::{Country, Lei};
use refusals::refusal::Refusal;
use refusals::tag::Tag;
use rows::key::TradeKey;
use rows::notice::Notice;
use rows::state::State;
use sheets::comparing::PLACES;
use sheets::finding::Finding;
use slip::draft::Draft;
use std::test::Fail;

pub const BUYER: &[u8] = b"00000000000000000195";

pub const SELLER: &[u8] = b"00000000000000000292";

// Writes the slip by which a party enters the trade T1, with the tags that it needs and no others.
pub fn write_slip<'t>(
    reporter: &'t [u8],
    other: &'t [u8],
    side: &'t [u8],
    out: &mut [u8],
) -> Option<usize> {
    let fields: [(Tag, &'t [u8]); 10] = [
        (Tag::TradeId, b"T1"),
        (Tag::ReportingCounterparty, reporter),
        (Tag::OtherKind, b"L"),
        (Tag::OtherCounterparty, other),
        (Tag::OtherCountry, b"PL"),
        (Tag::Action, b"N"),
        (Tag::Level, b"T"),
        (Tag::EligibleDate, b"2020-07-31"),
        (Tag::Side, side),
        (Tag::ExecutionTimestamp, b"2020-07-31T10:00:00Z"),
    ];
    let mut draft = Draft::new();
    for (tag, text) in fields {
        let _ = draft.push(tag, text);
    }
    draft.slip().write(out)
}

// What a book answers to a party's report.
fn report(
    book: &mut Book,
    reporter: &[u8],
    other: &[u8],
    side: &[u8],
) -> Result<Result<(), Refusal>, Fail> {
    let mut bytes = [0; 256];
    let written = write_slip(reporter, other, side, &mut bytes);
    match written.and_then(|len| bytes.get(..len)) {
        Some(slip) => Ok(book.report(slip)),
        None => Err(Fail::new("not written")),
    }
}

pub fn buyer_reports(book: &mut Book) -> Result<Result<(), Refusal>, Fail> {
    report(book, BUYER, SELLER, b"B")
}

pub fn seller_reports(book: &mut Book) -> Result<Result<(), Refusal>, Fail> {
    report(book, SELLER, BUYER, b"S")
}

pub fn day(text: &[u8]) -> Result<BusinessDay, Fail> {
    BusinessDay::read(text).map_err(|_| Fail::new("not a business day"))
}

// Both sides, in order.
pub fn parties() -> Result<[Lei; 2], Fail> {
    match (Lei::read(BUYER), Lei::read(SELLER)) {
        (Ok(buyer), Ok(seller)) => Ok([buyer, seller]),
        _ => Err(Fail::new("no LEI")),
    }
}

pub fn countries() -> Result<[Country; 1], Fail> {
    match Country::read(b"PL") {
        Ok(country) => Ok([country]),
        Err(_) => Err(Fail::new("no country")),
    }
}

// A place for a notice, with what no close puts there.
pub fn unused_notice() -> Result<Notice, Fail> {
    match TradeKey::read(b"T0", BUYER, SELLER) {
        Ok(key) => Ok(Notice {
            key,
            state: State::Npar,
            findings: [Finding::Differs; PLACES],
        }),
        Err(_) => Err(Fail::new("no key")),
    }
}

pub fn is_unused(notice: &Notice) -> bool {
    notice.state == State::Npar && notice.findings == [Finding::Differs; PLACES]
}
