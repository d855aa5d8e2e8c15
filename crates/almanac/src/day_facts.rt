// What the calendar tells of a day.
use business::business_day::BusinessDay;
use calendar::date::Date;

// The day, whether it is closed, and the two business days that follow: none where one would be past 2099.
#[derive(Clone, Copy, Debug, PartialEq, Eq)]
pub struct DayFacts {
    pub date: Date,
    pub closed: bool,
    pub next: Option<BusinessDay>,
    pub second: Option<BusinessDay>,
}
