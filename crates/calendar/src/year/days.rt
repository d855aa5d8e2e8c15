// The days of a year, counted by months.
ghost use Rattle.std.specs.Prelude.{◌≡◌, ℕ, ◌+◌, ◌-◌, ◌<◌, ◌≤◌, nat_le, slice_index};
ghost use Rattle.std.specs.List.{prefix_len};
ghost use Rattle.calendar.specs.Gregorian.{century, days_before, leap, months_of, part_of};

use super::Year;

// The days before each month, and all days: of a common year, and of a leap year. Two tables, since the months that
// have begun are counted over a slice of the year's own.
const COMMON: [u16; 13] = [0, 31, 59, 90, 120, 151, 181, 212, 243, 273, 304, 334, 365];

const LEAP: [u16; 13] = [0, 31, 60, 91, 121, 152, 182, 213, 244, 274, 305, 335, 366];

// How many of these months begin on the day that so many days precede, or before it.
fn begun(starts: &[u16], days: u16) -> usize
    ensures { result ≡ prefix_len (λ start. nat_le start days) starts.now }
{
    starts.iter().take_while(|start| **start <= days).count()
}

impl Year {
    fn is_leap(self) -> bool
        ensures { result ≡ leap self.number }
    {
        self.number % 4 == 0 && (self.number % 100 != 0 || self.number % 400 == 0)
    }

    // The days from 2000-01-01 to the first day of the year.
    #[tactic(auto, using(crate::proofs::Spans::years_before))]
    pub(crate) fn first_day(self) -> u16
        ensures value { result ≡ days_before century (self.number - 2000) }
        ensures bound { result ≤ 36160 }
    {
        let years = self.number - 2000;
        years * 365 + (years + 3) / 4
    }

    // The days of the year before each of its months, and all its days.
    fn month_starts(self) -> [u16; 13]
        ensures { (k : ℕ) → k ≤ 12 → slice_index result k ≡ days_before (months_of self.number) k }
    {
        if self.is_leap() { LEAP } else { COMMON }
    }

    // The days of the year before the month that so many months precede; twelve precede the next year.
    #[tactic(auto, using(crate::proofs::Parts::months_most))]
    pub(crate) fn before_month(self, months: u8) -> u16
        requires { months ≤ 12 }
        ensures value { result ≡ days_before (months_of self.number) months }
        ensures bound { result ≤ 366 }
    {
        self.month_starts()[usize::from(months)]
    }

    // The length of the month that so many months precede.
    #[tactic(auto, using(crate::proofs::Parts::month_next))]
    pub(crate) fn month_length(self, months: u8) -> u16
        requires { months < 12 }
        ensures { result ≡ slice_index (months_of self.number) months }
    {
        self.before_month(months + 1) - self.before_month(months)
    }

    // The month of the day that so many days of the year precede, and its day of the month, both from 1.
    pub(crate) fn month_and_day(self, days: u16) -> (u8, u8)
        requires { days < days_before (months_of self.number) 12 }
        ensures month { result.0 ≡ 1 + (part_of (months_of self.number) days).0 }
        ensures day { result.1 ≡ 1 + (part_of (months_of self.number) days).1 }
    {
        let starts = self.month_starts();
        let months = begun(&starts[1..12], days);
        (1 + months as u8, 1 + (days - starts[months]) as u8)
    }
}
