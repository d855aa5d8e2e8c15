// Days one after the other.
ghost use Rattle.std.specs.Prelude.{◌≡◌, ◌<◌};
ghost use Rattle.std.specs.Option.{option_map};
ghost use Rattle.calendar.specs.Dates.{number};
ghost use Rattle.calendar.specs.Gregorian.{day_after, day_order};

use super::Date;
use std::cmp::Ordering;

// The number of 2099-12-31.
const LAST_DAY: u16 = 36_524;

impl Date {
    // The days since 2000-01-01.
    pub fn days_since_2000(self) -> u16
        ensures value { result ≡ number self }
        ensures bound { result < 36525 }
    {
        self.number
    }

    // The day after this one, if it is not past 2099.
    pub fn next_day(self) -> Option<Date>
        ensures { option_map number result ≡ day_after (number self) }
    {
        if self.number == LAST_DAY {
            return None;
        }
        Some(Date {
            number: self.number + 1,
        })
    }

    // The order of days, the earlier before the later: the derived order, told in the calendar's words.
    pub fn compare(self, other: Date) -> Ordering
        ensures { result ≡ day_order (number self) (number other) }
    {
        self.cmp(&other)
    }
}
