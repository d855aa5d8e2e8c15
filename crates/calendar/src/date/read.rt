// Reads a date from text, and writes it.
ghost use Rattle.std.specs.Prelude.{◌≡◌, IfOk, Some, IsAscii, codes};
ghost use Rattle.std.specs.Option.{option_map};
ghost use Rattle.std.specs.Result.{result_ok};
ghost use Rattle.calendar.specs.Dates.{number};
ghost use Rattle.calendar.specs.Text.{ReadsDate, date_of, date_text};

use super::Date;
use super::parts::civil;
use std::error::Error;
use std::fmt;
use texts::digits::write_digits;
use texts::numbers::read_three;

// The text names no day from 2000-01-01 to 2099-12-31.
#[derive(Clone, Copy, Debug, PartialEq, Eq)]
pub struct NotADate;

impl fmt::Display for NotADate {
    ghost output = { λ _. Some (codes "no day from 2000-01-01 to 2099-12-31") };

    fn fmt<W: fmt::Write>(&self, f: &mut fmt::Formatter<W>) -> fmt::Result {
        f.write_str("no day from 2000-01-01 to 2099-12-31")
    }
}

impl Error for NotADate {}

impl Date {
    // The day that a text names as YYYY-MM-DD. `read` and no `TryFrom`, as at every value.
    pub fn read(text: &[u8]) -> Result<Date, NotADate>
        ensures value { option_map number (result_ok result) ≡ date_of text.now }
        ensures plain { ReadsDate text.now (option_map number (result_ok result)) }
        ensures one_text { IfOk result (λ d. text.now ≡ date_text (number d)) }
    {
        read_three(text, 4, b'-')
            .and_then(|(year, month, day)| Date::new(year, month, day))
            .ok_or(NotADate)
    }

    // The day as YYYY-MM-DD.
    pub fn text(self) -> [u8; 10]
        ensures text { result ≡ date_text (number self) }
        ensures reads_back { date_of result ≡ Some (number self) }
        ensures ascii { IsAscii result }
    {
        let day = civil(self);
        let mut text = *b"YYYY-MM-DD";
        write_digits(&mut text[0..4], u128::from(day.year.number));
        write_digits(&mut text[5..7], u128::from(day.month));
        write_digits(&mut text[8..10], u128::from(day.day));
        text
    }
}
