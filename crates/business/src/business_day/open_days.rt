// Which days are business days, and the day on which a book opens.
ghost use Rattle.std.specs.Prelude.{◌≡◌, not, IfErr, Some};
ghost use Rattle.std.specs.Option.{option_map};
ghost use Rattle.std.specs.Result.{result_ok};
ghost use Rattle.calendar.specs.Dates.{number};
ghost use Rattle.calendar.specs.Gregorian.{day_at, month_at, year_at};
ghost use Rattle.refusals.specs.Words.{parts_of};
ghost use Rattle.business.specs.BusinessDays.{day_no, if_open, not_a_business_day, opening_of};
ghost use Rattle.business.specs.TargetDays.{closed, easter_holiday, fixed_holiday, weekend};
ghost use Rattle.calendar.specs.Easter.{easter_sunday};

use super::BusinessDay;
use calendar::date::{Date, Weekday};
use refusals::refusal::Refusal;

fn is_weekend(date: Date) -> bool
    ensures { result ≡ weekend (number date) }
{
    matches!(date.weekday(), Weekday::Saturday | Weekday::Sunday)
}

fn is_fixed_holiday(date: Date) -> bool
    ensures { result ≡ fixed_holiday (month_at (number date)) (day_at (number date)) }
{
    matches!(
        (date.month(), date.day()),
        (1, 1) | (5, 1) | (12, 25) | (12, 26)
    )
}

fn is_easter_holiday(date: Date) -> bool
    ensures { result ≡ easter_holiday (number date) (easter_sunday (year_at (number date))) }
{
    let day = date.days_since_2000();
    let sunday = date.year().easter().days_since_2000();
    day + 2 == sunday || day == sunday + 1
}

// Whether TARGET is closed on a day.
#[tactic(auto, unfolding(crate::specs::TargetDays::closed))]
fn is_closed(date: Date) -> bool
    ensures { result ≡ closed (number date) }
{
    is_weekend(date) || is_fixed_holiday(date) || is_easter_holiday(date)
}

// Whether TARGET is open on a day.
pub fn is_business_day(date: Date) -> bool
    ensures { result ≡ not (closed (number date)) }
{
    !is_closed(date)
}

impl BusinessDay {
    // A day, if TARGET is open on it.
    pub fn new(date: Date) -> Option<BusinessDay>
        ensures { option_map day_no result ≡ if_open (Some (number date)) }
    {
        if is_closed(date) {
            return None;
        }
        Some(BusinessDay { date })
    }

    // The day on which a book opens, as YYYY-MM-DD. A text that names no day, or a closed one, is refused. `read` and no
    // `TryFrom`, as at every value.
    pub fn read(text: &[u8]) -> Result<BusinessDay, Refusal>
        ensures value { option_map day_no (result_ok result) ≡ opening_of text.now }
        ensures refusal { IfErr result (λ e. parts_of e ≡ not_a_business_day) }
    {
        Date::read(text)
            .ok()
            .and_then(BusinessDay::new)
            .ok_or(Refusal::NotABusinessDay)
    }

    pub fn date(self) -> Date
        ensures { number result ≡ day_no self }
    {
        self.date
    }
}
