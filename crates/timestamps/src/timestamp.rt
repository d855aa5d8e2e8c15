// A second of a day from 2000 to 2099, in UTC.
use self::clock::TimeOfDay;
use calendar::date::Date;

pub mod checks;
mod clock;
pub mod parts;
pub mod read;

// A day and the time of that day.
#[derive(Clone, Copy, Debug, PartialEq, Eq)]
pub struct Timestamp {
    date: Date,
    time: TimeOfDay,
}
