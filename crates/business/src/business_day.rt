// A day on which TARGET is open.
ghost use Rattle.std.specs.Prelude.{◌≡◌, false};
ghost use Rattle.calendar.specs.Dates.{number};
ghost use Rattle.business.specs.TargetDays.{closed};

use calendar::date::Date;

pub mod following;
pub mod open_days;

#[derive(Clone, Copy, Debug, PartialEq, Eq, PartialOrd, Ord)]
pub struct BusinessDay {
    date: Date,
    ghost open: { closed (number date) ≡ false },
}
