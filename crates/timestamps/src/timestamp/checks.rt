// Two timestamps compared: equality and the two tolerance checks on timestamps.
ghost use Rattle.std.specs.Prelude.{◌≡◌};
ghost use Rattle.std.specs.Option.{option_map};
ghost use Rattle.codes.specs.Codes.{text_of};
ghost use Rattle.timestamps.specs.Checks.{named_off_exchange, same_date, same_instant, within_an_hour};
ghost use Rattle.timestamps.specs.Timestamps.{instant};

use super::Timestamp;
use codes::code::Venue;

// The most seconds between two times that match.
const HOUR: u32 = 3600;

// Whether a venue is named, and is off exchange.
fn is_off_exchange(venue: Option<Venue>) -> bool
    ensures { result ≡ named_off_exchange (option_map text_of venue) }
{
    venue.is_some_and(|venue| venue.is_off_exchange())
}

impl Timestamp {
    // Whether both are the same instant: the derived equality, told of instants.
    pub fn same_instant(self, other: Timestamp) -> bool
        ensures { result ≡ same_instant (instant self) (instant other) }
    {
        self == other
    }

    // Tolerance check 4: whether both are on the same date, the derived equality told of instants.
    pub fn same_date(self, other: Timestamp) -> bool
        ensures { result ≡ same_date (instant self) (instant other) }
    {
        self.date == other.date
    }

    // Tolerance check 3: whether both are on the same date and, unless each was executed at a venue that is no
    // exchange, at most an hour apart.
    pub fn within_an_hour(
        self,
        venue: Option<Venue>,
        other: Timestamp,
        other_venue: Option<Venue>,
    ) -> bool
        ensures { result ≡ within_an_hour (option_map text_of venue) (option_map text_of other_venue) (instant self) (instant other) }
    {
        if !self.same_date(other) {
            return false;
        }
        if is_off_exchange(venue) && is_off_exchange(other_venue) {
            return true;
        }
        self.time.second.abs_diff(other.time.second) <= HOUR
    }
}
