// Looks a day up as a journal spells it.
ghost use Rattle.std.specs.Prelude.{◌≡◌, Some};
ghost use Rattle.std.specs.Option.{option_map};
ghost use Rattle.std.specs.Result.{result_map_both};
ghost use Rattle.refusals.specs.Words.{parts_of};
ghost use Rattle.business.specs.BusinessDays.{day_no};
ghost use Rattle.calendar.specs.Text.{date_of};
ghost use Rattle.almanac.specs.Days.{day_or_never, facts_of, facts_parts, facts_text, shown_facts, told_facts};

use crate::day_facts::DayFacts;
use business::business_day::BusinessDay;
use business::business_day::open_days::is_business_day;
use calendar::date::Date;
use refusals::refusal::Refusal;
use refusals::tag::Tag;
use std::fmt;

// What the calendar tells of the day that a text names. A text that names none is a bad field.
pub fn look_up(text: &[u8]) -> Result<DayFacts, Refusal>
    ensures value { result_map_both facts_parts parts_of result ≡ facts_of (date_of text.now) }
    ensures shown { shown_facts result ≡ facts_text (date_of text.now) }
{
    let date = Date::read(text).map_err(|_| Refusal::BadField(Tag::EligibleDate))?;
    Ok(DayFacts {
        date,
        closed: !is_business_day(date),
        next: BusinessDay::after(date),
        second: BusinessDay::second_after(date),
    })
}

// A business day that follows, as it is told.
#[derive(Clone, Copy)]
struct Following(Option<BusinessDay>);

impl fmt::Display for Following {
    ghost output = { λ f. Some (day_or_never (option_map day_no f.0)) };

    fn fmt<W: fmt::Write>(&self, f: &mut fmt::Formatter<W>) -> fmt::Result {
        match self.0 {
            Some(day) => {
                let date = day.date();
                write!(f, "{date}")
            }
            None => write!(f, "never"),
        }
    }
}

impl fmt::Display for DayFacts {
    ghost output = { λ d. Some (told_facts d) };

    fn fmt<W: fmt::Write>(&self, f: &mut fmt::Formatter<W>) -> fmt::Result {
        let date = self.date;
        let kind = if self.closed { "closed" } else { "business" };
        let next = Following(self.next);
        let second = Following(self.second);
        write!(f, "{date} {kind} next {next} second {second}")
    }
}
