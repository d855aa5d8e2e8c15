// A year by its number.
ghost use Rattle.std.specs.Prelude.{◌≡◌, ◌≤◌};
ghost use Rattle.std.specs.Option.{option_map};
ghost use Rattle.calendar.specs.Dates.{year_number};
ghost use Rattle.calendar.specs.Gregorian.{existing_year};

use super::Year;

impl Year {
    // The year with this number, if it is one from 2000 to 2099.
    pub fn new(number: u16) -> Option<Year>
        ensures { option_map year_number result ≡ existing_year number }
    {
        if !(2000..=2099).contains(&number) {
            return None;
        }
        Some(Year { number })
    }

    // Its number, from 2000 to 2099. A method and no `From`, since it gives the range too.
    pub fn number(self) -> u16
        ensures value { result ≡ year_number self }
        ensures low { 2000 ≤ result }
        ensures high { result ≤ 2099 }
    {
        self.number
    }
}
