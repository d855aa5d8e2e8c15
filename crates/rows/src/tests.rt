// Rows and keys of reports that are read from slips.
use crate::day::{day_t, due_on, is_ahead, is_due_later};
use crate::key::TradeKey;
use crate::row::Row;
use crate::standing::Standing;
use crate::state::State;
use crate::tries::Tries;
use business::business_day::BusinessDay;
use calendar::date::Date;
use fields::field::report::Action;
use refusals::refusal::Refusal;
use refusals::tag::Tag;
use report::report::Report;
use sheets::finding::Finding;
use slip::draft::Draft;
use std::test::Fail;

const FIRST: &[u8] = b"259400LUPUA1BSPB4X83";

const SECOND: &[u8] = b"529900T8BM49AURSDO55";

const ACTIONS: [Action; 8] = [
    Action::New,
    Action::PositionComponent,
    Action::Modify,
    Action::Correction,
    Action::ValuationUpdate,
    Action::EarlyTermination,
    Action::Compression,
    Action::Error,
];

// How a row stands after each of the actions, or the number with which it refuses one.
const AFTER: [(Standing, &[u8]); 3] = [
    (Standing::Active, b"66aaaeew"),
    (Standing::Ended, b"668e888w"),
    (Standing::Withdrawn, b"66888888"),
];

// Three texts, and the one that is refused first.
const KEYS: [(&[u8], &[u8], &[u8], Option<Tag>); 6] = [
    (b"T1", FIRST, SECOND, None),
    (b"T1", FIRST, b"C1", None),
    (b"T1-", b"", b"", Some(Tag::TradeId)),
    (b"T1", b"C1", b"", Some(Tag::ReportingCounterparty)),
    (b"T1", FIRST, b"", Some(Tag::OtherCounterparty)),
    (b"T1", FIRST, b"c1", Some(Tag::OtherCounterparty)),
];

// Action and level, day T, whether that is ahead, and the due day. Executed on a Thursday, eligible on the Tuesday after;
// today is the Monday between.
const DAYS: [(&[u8], &[u8], &[u8], bool, &[u8]); 6] = [
    (b"N", b"T", b"2020-07-30", false, b"2020-08-04"),
    (b"P", b"T", b"2020-07-30", false, b"2020-08-04"),
    (b"N", b"P", b"2020-08-04", true, b"2020-08-06"),
    (b"M", b"T", b"2020-08-04", true, b"2020-08-06"),
    (b"R", b"T", b"2020-08-04", true, b"2020-08-06"),
    (b"E", b"T", b"2020-08-04", false, b"2020-08-06"),
];

// Country, side and valuation, as the row is entered with them and as later reports have them.
const ENTERED: [&[u8]; 3] = [b"PL", b"B", b"7"];

const LATER: [&[u8]; 3] = [b"DE", b"S", b"9"];

// What a later report leaves of these and of the tries, and whether the row stays settled.
const AMENDED: [(&[u8], [&[u8]; 3], u8, bool); 5] = [
    (b"M", [b"DE", b"S", b"7"], 0, false),
    (b"R", [b"DE", b"S", b"7"], 0, false),
    (b"V", [b"PL", b"B", b"9"], 2, true),
    (b"C", [b"PL", b"B", b"7"], 2, false),
    (b"E", [b"PL", b"B", b"7"], 2, false),
];

// The report of a trade between the two.
fn report<'t>(action: &'t [u8], level: &'t [u8], values: [&'t [u8]; 3]) -> Result<Report, Fail> {
    let [country, side, valuation] = values;
    let fields: [(Tag, &'t [u8]); 11] = [
        (Tag::TradeId, b"T1"),
        (Tag::ReportingCounterparty, FIRST),
        (Tag::OtherKind, b"L"),
        (Tag::OtherCounterparty, SECOND),
        (Tag::OtherCountry, country),
        (Tag::Action, action),
        (Tag::Level, level),
        (Tag::EligibleDate, b"2020-08-04"),
        (Tag::Side, side),
        (Tag::ExecutionTimestamp, b"2020-07-30T10:00:00Z"),
        (Tag::Valuation, valuation),
    ];
    let mut draft = Draft::new();
    for (tag, text) in fields {
        let _ = draft.push(tag, text);
    }
    let mut bytes = [0; 512];
    let Some(len) = draft.slip().write(&mut bytes) else {
        return Err(Fail::new("not written"));
    };
    match bytes.get(..len).map(Report::read) {
        Some(Ok(report)) => Ok(report),
        _ => Err(Fail::new("not read")),
    }
}

fn today() -> Result<BusinessDay, Fail> {
    BusinessDay::read(b"2020-08-03").map_err(|_| Fail::new("not a business day"))
}

fn letter(standing: Option<Standing>) -> u8 {
    match standing {
        Some(Standing::Active) => b'a',
        Some(Standing::Ended) => b'e',
        Some(Standing::Withdrawn) => b'w',
        None => b'-',
    }
}

#[test]
fn a_row_takes_what_its_standing_allows(rt: HostRuntime) {
    for (action, entered) in ACTIONS.iter().zip(b"ae------") {
        assert!(rt; letter(Standing::entered_by(*action)) == *entered);
    }
    for (standing, after) in AFTER {
        for (action, expected) in ACTIONS.iter().zip(after) {
            let mut row = Row::blank();
            row.standing = standing;
            let found = match row.take_action(*action) {
                Ok(()) => letter(Some(row.standing)),
                Err(refusal) => b'0' + refusal.number(),
            };
            assert!(rt; found == *expected, "{standing}");
        }
    }
}

#[test]
fn keys_are_read_and_mirrored(rt: HostRuntime) -> Result<(), Fail> {
    for (trade, reporter, other, bad) in KEYS {
        let refused = TradeKey::read(trade, reporter, other).err();
        assert!(rt; refused == bad.map(Refusal::BadField));
    }
    let (Ok(key), Ok(mirror), Ok(client)) = (
        TradeKey::read(b"T1", FIRST, SECOND),
        TradeKey::read(b"T1", SECOND, FIRST),
        TradeKey::read(b"T1", FIRST, b"C1"),
    ) else {
        return Err(Fail::new("not read"));
    };
    let of_report = TradeKey::of(&report(b"N", b"T", ENTERED)?.parties);
    assert!(rt; of_report == key && key.mirror() == mirror && mirror.mirror() == key);
    assert!(rt; key < mirror && key < client && client < mirror);
    Ok(())
}

#[test]
fn rows_are_due_by_day_t(rt: HostRuntime) -> Result<(), Fail> {
    let today = today()?;
    for (action, level, day, ahead, due) in DAYS {
        let report = report(action, level, ENTERED)?;
        let due_day = due_on(&report, today);
        assert!(rt; day_t(&report) == Date::read(day).ok());
        assert!(rt; is_ahead(&report, today) == ahead);
        assert!(rt; due_day == BusinessDay::read(due).ok() && is_due_later(due_day, today));
    }
    assert!(rt; !is_due_later(Some(today), today) && is_due_later(None, today));
    Ok(())
}

// A row that was entered, tried twice and was settled then.
fn settled_row() -> Result<Row, Fail> {
    let mut row = Row::enter(&report(b"N", b"T", ENTERED)?, today()?, Standing::Active);
    row.tries = Tries::none().one_more().one_more();
    row.settled = true;
    Ok(row)
}

#[test]
fn later_reports_amend_a_row(rt: HostRuntime) -> Result<(), Fail> {
    let old = settled_row()?;
    for (action, values, tries, is_settled) in AMENDED {
        let row = old.amended(&report(action, b"T", LATER)?, Standing::Ended);
        let expected = report(b"N", b"T", values)?;
        assert!(rt; row.tags.country == expected.parties.country);
        assert!(rt; row.tags.details.side == expected.details.side);
        assert!(rt; row.tags.valuation == expected.valuation);
        assert!(rt; row.tags.action == Action::New && row.due == old.due && row.key == old.key);
        assert!(rt; row.tries.count() == tries && row.settled == is_settled);
        assert!(rt; row.standing == Standing::Ended && row.state == old.state);
    }
    Ok(())
}

#[test]
fn a_row_keeps_what_entered_it(rt: HostRuntime) -> Result<(), Fail> {
    let report = report(b"N", b"T", ENTERED)?;
    let row = Row::enter(&report, today()?, Standing::Active);
    assert!(rt; row.key == TradeKey::of(&report.parties) && row.standing == Standing::Active);
    assert!(rt; row.tags.action == Action::New && row.tags.eligible == report.eligible);
    assert!(rt; row.due == BusinessDay::read(b"2020-08-04").ok() && row.tries == Tries::none());
    assert!(rt; row.state == State::Wait && row.findings == [Finding::NotCompared; 64]);
    assert!(rt; !row.settled);
    Ok(())
}
