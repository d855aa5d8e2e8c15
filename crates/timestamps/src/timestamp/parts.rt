// The day of a timestamp, and the time of that day.
ghost use Rattle.std.specs.Prelude.{◌≡◌, ◌/◌, ◌%◌};
ghost use Rattle.calendar.specs.Dates.{number};
ghost use Rattle.timestamps.specs.Times.{day_seconds};
ghost use Rattle.timestamps.specs.Timestamps.{instant};

use super::Timestamp;
use calendar::date::Date;

impl Timestamp {
    pub fn date(self) -> Date
        ensures { number result ≡ instant self / day_seconds }
    {
        self.date
    }

    // The seconds of the day that have passed, below 86,400.
    pub fn second_of_day(self) -> u32
        ensures { result ≡ instant self % day_seconds }
    {
        self.time.second
    }
}
