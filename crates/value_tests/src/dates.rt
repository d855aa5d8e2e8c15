// Days by their parts and their order, and Easter.
use calendar::date::{Date, Weekday};
use std::cmp::Ordering;

// The ends of the calendar, leap days and ends of years, with their numbers.
const DAYS: &[(&str, (u16, u8, u8), u16, Weekday)] = &[
    ("2000-01-01", (2000, 1, 1), 0, Weekday::Saturday),
    ("2000-02-29", (2000, 2, 29), 59, Weekday::Tuesday),
    ("2000-12-31", (2000, 12, 31), 365, Weekday::Sunday),
    ("2020-01-01", (2020, 1, 1), 7305, Weekday::Wednesday),
    ("2020-02-29", (2020, 2, 29), 7364, Weekday::Saturday),
    ("2020-03-01", (2020, 3, 1), 7365, Weekday::Sunday),
    ("2020-04-13", (2020, 4, 13), 7408, Weekday::Monday),
    ("2040-11-30", (2040, 11, 30), 14944, Weekday::Friday),
    ("2099-12-31", (2099, 12, 31), 36524, Weekday::Thursday),
];

fn is_told(text: &str, parts: (u16, u8, u8), count: u16, weekday: Weekday) -> bool {
    let Ok(date) = Date::read(text.as_bytes()) else {
        return false;
    };
    let (year, month, day) = parts;
    Date::new(year, month, day) == Some(date)
        && date.text().as_slice() == text.as_bytes()
        && (date.year().number(), date.month(), date.day()) == parts
        && date.days_since_2000() == count
        && date.weekday() == weekday
}

#[test]
fn days_have_parts(rt: HostRuntime) {
    for (text, parts, count, weekday) in DAYS {
        assert!(rt; is_told(text, *parts, *count, *weekday), "{text}");
    }
}

const PAIRS: &[(&str, &str, Ordering)] = &[
    ("2000-01-01", "2099-12-31", Ordering::Less),
    ("2019-12-31", "2020-01-01", Ordering::Less),
    ("2020-04-12", "2020-04-12", Ordering::Equal),
    ("2020-05-01", "2020-04-30", Ordering::Greater),
    ("2020-03-01", "2020-02-29", Ordering::Greater),
];

fn is_ordered(first: &str, second: &str, order: Ordering) -> bool {
    match (Date::read(first.as_bytes()), Date::read(second.as_bytes())) {
        (Ok(first), Ok(second)) => first.compare(second) == order,
        _ => false,
    }
}

#[test]
fn days_have_an_order(rt: HostRuntime) {
    for (first, second, order) in PAIRS {
        assert!(rt; is_ordered(first, second, *order), "{first} {second}");
    }
}

// Among them the earliest Easter and the latest, and 2049 and 2076, where a simpler rule gives a week too much.
const EASTERS: &[(u16, &str)] = &[
    (2000, "2000-04-23"),
    (2008, "2008-03-23"),
    (2016, "2016-03-27"),
    (2019, "2019-04-21"),
    (2020, "2020-04-12"),
    (2024, "2024-03-31"),
    (2038, "2038-04-25"),
    (2049, "2049-04-18"),
    (2076, "2076-04-19"),
    (2099, "2099-04-12"),
];

fn is_easter(year: u16, text: &str) -> bool {
    Date::easter(year).is_some_and(|day| day.text().as_slice() == text.as_bytes())
}

#[test]
fn easter_is_as_published(rt: HostRuntime) {
    for (year, text) in EASTERS {
        assert!(rt; is_easter(*year, text), "{year}");
    }
    assert!(rt; Date::easter(1999).is_none());
    assert!(rt; Date::easter(2100).is_none());
}
