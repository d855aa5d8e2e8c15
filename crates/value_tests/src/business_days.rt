// The days on which a book opens, and those on which a report is due.
use business::business_day::BusinessDay;
use calendar::date::Date;

// Texts, and whether a book opens on that day. A national holiday on which TARGET is open is a business day.
const DAYS: &[(&str, bool)] = &[
    ("2000-01-03", true),
    ("2000-04-21", false),
    ("2000-04-24", false),
    ("2020-01-01", false),
    ("2020-01-02", true),
    ("2020-02-29", false),
    ("2020-02-30", false),
    ("2020-04-09", true),
    ("2020-04-10", false),
    ("2020-04-12", false),
    ("2020-04-13", false),
    ("2020-04-14", true),
    ("2020-05-01", false),
    ("2020-05-21", true),
    ("2020-06-01", true),
    ("2020-08-01", false),
    ("2020-08-02", false),
    ("2020-12-24", true),
    ("2020-12-25", false),
    ("2020-12-31", true),
    ("2022-12-26", false),
    ("2024-02-29", true),
    ("2099-12-31", true),
    ("2100-01-01", false),
    ("", false),
];

fn opens(text: &str, open: bool) -> bool {
    match BusinessDay::read(text.as_bytes()) {
        Ok(day) => open && day.date().text().as_slice() == text.as_bytes(),
        Err(refusal) => !open && refusal.number() == 13 && refusal.tag().is_none(),
    }
}

#[test]
fn books_open_on_business_days(rt: HostRuntime) {
    for (text, open) in DAYS {
        assert!(rt; opens(text, *open), "{text}");
    }
}

// Day T, today, and the day on which the report is due: for T long past, in the future, over a weekend, over Easter,
// over 1 May, over the New Year, and at the end of the calendar.
const DUE: &[(&str, &str, &str)] = &[
    ("2020-07-31", "2020-08-03", "2020-08-04"),
    ("2020-08-01", "2020-08-03", "2020-08-04"),
    ("2019-01-15", "2020-08-03", "2020-08-04"),
    ("2000-01-01", "2020-08-03", "2020-08-04"),
    ("2020-09-01", "2020-08-03", "2020-09-03"),
    ("2020-04-08", "2020-04-09", "2020-04-14"),
    ("2020-04-09", "2020-04-09", "2020-04-15"),
    ("2020-04-11", "2020-04-09", "2020-04-15"),
    ("2020-04-29", "2020-04-30", "2020-05-04"),
    ("2020-12-24", "2020-12-24", "2020-12-29"),
    ("2020-12-30", "2020-12-31", "2021-01-04"),
    ("2099-12-29", "2020-08-03", "2099-12-31"),
    ("2099-12-30", "2020-08-03", "never"),
    ("2099-12-31", "2020-08-03", "never"),
    ("2020-07-31", "2099-12-30", "2099-12-31"),
    ("2020-07-31", "2099-12-31", "never"),
];

fn is_due(day_t: &str, today: &str, due: &str) -> bool {
    let (Ok(day_t), Ok(today)) = (
        Date::read(day_t.as_bytes()),
        BusinessDay::read(today.as_bytes()),
    ) else {
        return false;
    };
    match BusinessDay::due(day_t, today) {
        Some(day) => day.date().text().as_slice() == due.as_bytes(),
        None => due == "never",
    }
}

#[test]
fn reports_are_due(rt: HostRuntime) {
    for (day_t, today, due) in DUE {
        assert!(rt; is_due(day_t, today, due), "{day_t} {today}");
    }
}
