// Timestamps: read, written, taken apart and compared.
use codes::code::Venue;
use timestamps::timestamp::Timestamp;

// Texts of timestamps, with the date and the seconds of that day.
const TIMES: &[(&str, &str, u32)] = &[
    ("2000-01-01T00:00:00Z", "2000-01-01", 0),
    ("2020-02-29T12:34:56Z", "2020-02-29", 45_296),
    ("2020-08-03T00:01:00Z", "2020-08-03", 60),
    ("2020-08-03T01:00:00Z", "2020-08-03", 3_600),
    ("2021-03-04T05:06:07Z", "2021-03-04", 18_367),
    ("2024-02-29T00:00:01Z", "2024-02-29", 1),
    ("2099-12-31T23:59:59Z", "2099-12-31", 86_399),
];

const NO_TIMES: &[&str] = &[
    "2020-08-03T24:00:00Z",
    "2020-08-03T23:60:00Z",
    "2020-08-03T23:59:60Z",
    "2023-02-29T10:00:00Z",
    "1999-12-31T23:59:59Z",
    "2100-01-01T00:00:00Z",
    "2020-08-03T10:00:00z",
    "2020-08-03t10:00:00Z",
    "2020-08-03 10:00:00Z",
    "2020-08-03T10:00:00",
    "2020-08-03T10:00:00ZZ",
    "2020-08-03T10:00:00 ",
    "2020-08-03T10.00.00Z",
    "2020-08-03T 9:00:00Z",
    "2020-08-03",
    "",
];

// Whether a text is read as this second of this day, and written again as it stands.
fn is_read(text: &str, day: &str, second: u32) -> bool {
    let Ok(time) = Timestamp::read(text.as_bytes()) else {
        return false;
    };
    time.text().as_slice() == text.as_bytes()
        && time.date().text().as_slice() == day.as_bytes()
        && time.second_of_day() == second
}

#[test]
fn timestamps_are_read(rt: HostRuntime) {
    for (text, day, second) in TIMES {
        assert!(rt; is_read(text, day, *second), "{text}");
    }
    for text in NO_TIMES {
        assert!(rt; Timestamp::read(text.as_bytes()).is_err(), "{text}");
    }
}

// Two times without a venue, and what checks 3 and 4 answer.
const PAIRS: &[(&str, &str, bool, bool)] = &[
    ("2020-08-03T10:00:00Z", "2020-08-03T10:00:00Z", true, true),
    ("2020-08-03T10:00:00Z", "2020-08-03T11:00:00Z", true, true),
    ("2020-08-03T10:00:00Z", "2020-08-03T11:00:01Z", false, true),
    ("2020-08-03T00:00:00Z", "2020-08-03T23:59:59Z", false, true),
    ("2020-08-03T23:59:59Z", "2020-08-04T00:00:00Z", false, false),
    ("2020-08-03T10:00:00Z", "2021-08-03T10:00:00Z", false, false),
];

// Whether both checks answer so, whichever side comes first.
fn is_compared(first: &str, second: &str, hour: bool, date: bool) -> bool {
    let (Ok(one), Ok(other)) = (
        Timestamp::read(first.as_bytes()),
        Timestamp::read(second.as_bytes()),
    ) else {
        return false;
    };
    one.within_an_hour(None, other, None) == hour
        && other.within_an_hour(None, one, None) == hour
        && one.same_date(other) == date
        && other.same_date(one) == date
        && one.same_instant(other) == (first == second)
}

#[test]
fn timestamps_are_compared(rt: HostRuntime) {
    for (first, second, hour, date) in PAIRS {
        assert!(rt;
            is_compared(first, second, *hour, *date),
            "{first} {second}"
        );
    }
}

// Two venues, and whether the hour falls away between them. An empty text is no venue.
const VENUES: &[(&str, &str, bool)] = &[
    ("XOFF", "XOFF", true),
    ("XXXX", "XXXX", true),
    ("XXXX", "XOFF", true),
    ("XOFF", "", false),
    ("", "XXXX", false),
    ("XOFF", "XWAR", false),
    ("XWAR", "XWAR", false),
    ("", "", false),
];

// Whether check 3 answers so for the first and the last second of a day. Over midnight no venue lets two times match.
fn is_off_exchange(venue: &str, other_venue: &str, off: bool) -> bool {
    let (Ok(first), Ok(last), Ok(next)) = (
        Timestamp::read(b"2020-08-03T00:00:00Z"),
        Timestamp::read(b"2020-08-03T23:59:59Z"),
        Timestamp::read(b"2020-08-04T00:00:00Z"),
    ) else {
        return false;
    };
    let venue = Venue::read(venue.as_bytes()).ok();
    let other_venue = Venue::read(other_venue.as_bytes()).ok();
    first.within_an_hour(venue, last, other_venue) == off
        && !last.within_an_hour(venue, next, other_venue)
}

#[test]
fn hours_do_not_count_off_exchange(rt: HostRuntime) {
    for (venue, other_venue, off) in VENUES {
        assert!(rt;
            is_off_exchange(venue, other_venue, *off),
            "{venue} {other_venue}"
        );
    }
}
