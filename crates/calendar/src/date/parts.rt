// A date by its year, month and day, and its weekday.
ghost use Rattle.std.specs.Prelude.{◌≡◌, ◌<◌};
ghost use Rattle.std.specs.Option.{option_map};
ghost use Rattle.calendar.specs.Gregorian.{day_at, day_of_year, days_before, existing, month_at, months_of, weekday_at, year_at};
ghost use Rattle.calendar.specs.Dates.{number, weekday_number, year_number};

use super::{Date, Weekday};
use crate::year::Year;

// The year of a day, and the days of that year before it.
fn split_year(date: Date) -> (Year, u16)
    ensures year { result.0.number ≡ year_at (number date) }
    ensures days { result.1 ≡ day_of_year (number date) }
    ensures within { result.1 < days_before (months_of result.0.number) 12 }
{
    // four years have 1,461 days, and the first of them is the leap year
    let years = date.number / 1461 * 4 + (date.number % 1461).saturating_sub(1) / 365;
    let year = Year {
        number: 2000 + years,
    };
    (year, date.number - year.first_day())
}

// A day as a calendar prints it.
#[derive(Clone, Copy)]
pub(super) struct CivilDay {
    pub(super) year: Year,
    pub(super) month: u8,
    pub(super) day: u8,
}

#[tactic(auto, unfolding(crate::specs::Gregorian::month_at, crate::specs::Gregorian::day_at))]
pub(super) fn civil(date: Date) -> CivilDay
    ensures year { result.year.number ≡ year_at (number date) }
    ensures month { result.month ≡ month_at (number date) }
    ensures day { result.day ≡ day_at (number date) }
{
    let (year, days) = split_year(date);
    let (month, day) = year.month_and_day(days);
    CivilDay { year, month, day }
}

impl Date {
    // The day of this year, month and day of the month, if there is one from 2000 to 2099.
    #[tactic(auto, using(std::proofs::lemmas::Bool::Decides::nat_tests), unfolding(crate::specs::Gregorian::existing))]
    pub fn new(year: u16, month: u8, day: u8) -> Option<Date>
        ensures { option_map number result ≡ existing year month day }
    {
        let year = Year::new(year)?;
        if !(1..=12).contains(&month) || day < 1 {
            return None;
        }
        let months = month - 1;
        if u16::from(day) > year.month_length(months) {
            return None;
        }
        Some(Date {
            number: year.first_day() + year.before_month(months) + u16::from(day - 1),
        })
    }

    // The year.
    pub fn year(self) -> Year
        ensures { year_number result ≡ year_at (number self) }
    {
        civil(self).year
    }

    // The month, from 1 to 12.
    pub fn month(self) -> u8
        ensures { result ≡ month_at (number self) }
    {
        civil(self).month
    }

    // The day of the month, from 1 to 31.
    pub fn day(self) -> u8
        ensures { result ≡ day_at (number self) }
    {
        civil(self).day
    }

    // The day of the week.
    pub fn weekday(self) -> Weekday
        ensures { weekday_number result ≡ weekday_at (number self) }
    {
        // day 0 was a Saturday
        match self.number % 7 {
            0 => Weekday::Saturday,
            1 => Weekday::Sunday,
            2 => Weekday::Monday,
            3 => Weekday::Tuesday,
            4 => Weekday::Wednesday,
            5 => Weekday::Thursday,
            _ => Weekday::Friday,
        }
    }
}
