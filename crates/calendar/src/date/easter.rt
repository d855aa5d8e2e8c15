// Easter.
ghost use Rattle.std.specs.Prelude.{◌≡◌, ◌<◌};
ghost use Rattle.std.specs.Option.{option_map};
ghost use Rattle.calendar.specs.Dates.{number, year_number};
ghost use Rattle.calendar.specs.Easter.{easter_in, easter_sunday};

use super::Date;
use crate::year::Year;

impl Year {
    // Easter Sunday, by the rule of Meeus, Jones and Butcher with its terms for the century worked out.
    pub fn easter(self) -> Date
        ensures { number result ≡ easter_sunday (year_number self) }
    {
        let cycle = self.number % 19;
        let moon = (19 * cycle + 24) % 30;
        let years = self.number - 2000;
        let sunday = (32 + 2 * (years / 4) - moon - years % 4) % 7;
        // in two cases of the cycle the rule gives a week too much
        let late = (cycle + 11 * moon + 22 * sunday) / 451;
        let march_22 = self.first_day() + self.before_month(2) + 21;
        Date {
            number: march_22 + moon + sunday - 7 * late,
        }
    }
}

impl Date {
    // Easter Sunday of the year with this number, from 2000 to 2099.
    pub fn easter(year: u16) -> Option<Date>
        ensures { option_map number result ≡ easter_in year }
    {
        Year::new(year).map(Year::easter)
    }
}
