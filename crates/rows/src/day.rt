// The day from which a report counts.
ghost use Rattle.std.specs.Prelude.{◌≡◌};
ghost use Rattle.std.specs.Option.{option_map};
ghost use Rattle.business.specs.BusinessDays.{day_no};
ghost use Rattle.calendar.specs.Dates.{number};
ghost use Rattle.rows.specs.Days.{ahead, day_t, due_later, due_on};

use crate::standing::{Standing, is_dated};
use business::business_day::BusinessDay;
use calendar::date::Date;
use fields::field::report::Level;
use report::report::Report;
use timestamps::timestamp::Timestamp;

// Day T of a report.
pub fn day_t(report: &Report) -> Option<Date>
    ensures { option_map number result ≡ day_t report.now }
{
    if Standing::entered_by(report.action).is_some() && matches!(report.level, Some(Level::Trade)) {
        return report.details.executed.map(Timestamp::date);
    }
    report.eligible
}

// Whether a report speaks of a day that is still to come.
pub fn is_ahead(report: &Report, today: BusinessDay) -> bool
    ensures { result ≡ ahead (day_no today) report.now }
{
    is_dated(report.action) && day_t(report).is_some_and(|day| today.date() < day)
}

// From which day the row of a report looks for its mirror.
pub fn due_on(report: &Report, today: BusinessDay) -> Option<BusinessDay>
    ensures { option_map day_no result ≡ due_on (day_no today) report.now }
{
    BusinessDay::due(day_t(report)?, today)
}

// Whether a row is due only after today.
pub fn is_due_later(due: Option<BusinessDay>, today: BusinessDay) -> bool
    ensures { result ≡ due_later (day_no today) (option_map day_no due) }
{
    due.is_none_or(|due| today < due)
}
