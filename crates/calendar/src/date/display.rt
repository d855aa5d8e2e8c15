// Prints a date as YYYY-MM-DD.
ghost use Rattle.std.specs.Prelude.{Some};
ghost use Rattle.calendar.specs.Dates.{number};
ghost use Rattle.calendar.specs.Text.{date_text};

use super::Date;
use std::fmt;
use texts::ascii::as_str;

impl fmt::Display for Date {
    ghost output = { λ d. Some (date_text (number d)) };

    fn fmt<W: fmt::Write>(&self, f: &mut fmt::Formatter<W>) -> fmt::Result {
        let text = self.text();
        f.write_str(as_str(&text))
    }
}
