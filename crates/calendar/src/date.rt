// A day of the years 2000 to 2099.
ghost use Rattle.std.specs.Prelude.{◌<◌};

pub mod display;
pub mod easter;
pub mod parts;
pub mod read;
pub mod sequence;

// A day by its number: 2000-01-01 has number 0, and 2099-12-31 has 36,524.
#[derive(Clone, Copy, Debug, PartialEq, Eq, PartialOrd, Ord)]
pub struct Date {
    number: u16,
    ghost within: { number < 36525 },
}

// A day of the week.
#[derive(Clone, Copy, Debug, PartialEq, Eq)]
pub enum Weekday {
    Monday,
    Tuesday,
    Wednesday,
    Thursday,
    Friday,
    Saturday,
    Sunday,
}
