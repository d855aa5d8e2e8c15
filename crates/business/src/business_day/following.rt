// The business days that follow a day.
ghost use Rattle.std.specs.Prelude.{◌≡◌, ◌-◌};
ghost use Rattle.std.specs.Option.{option_map};
ghost use Rattle.calendar.specs.Dates.{number};
ghost use Rattle.calendar.specs.Gregorian.{day_count};
ghost use Rattle.business.specs.BusinessDays.{day_no};
ghost use Rattle.business.specs.TargetDays.{FirstAfter, SecondAfter, due_day, first_from, next_business, second_business};

use super::BusinessDay;
use calendar::date::Date;

// The first business day from a day on, if it is not past 2099.
#[tactic(auto, using(std::proofs::lemmas::Bool::Decides::nat_tests, crate::proofs::Following::found_open, crate::proofs::Following::passed_closed, crate::proofs::Following::found_none))]
fn first_open(date: Date) -> Option<BusinessDay>
    ensures { option_map day_no result ≡ first_from (day_count - number date) (number date) }
{
    // no chain: the library does not say that its `successors` end, which `find_map` requires
    let mut day = date;
    loop {
        if let Some(open) = BusinessDay::new(day) {
            return Some(open);
        }
        day = day.next_day()?;
    }
}

impl BusinessDay {
    // The first business day after a day, if it is not past 2099.
    #[tactic(auto, using(std::proofs::lemmas::Bool::Decides::nat_tests, crate::proofs::Following::found_none), unfolding(crate::specs::TargetDays::next_business))]
    pub fn after(date: Date) -> Option<BusinessDay>
        ensures value { option_map day_no result ≡ next_business (number date) }
        ensures plain { FirstAfter (number date) (option_map day_no result) }
    {
        first_open(date.next_day()?)
    }

    // The second business day after a day, if it is not past 2099.
    pub fn second_after(date: Date) -> Option<BusinessDay>
        ensures value { option_map day_no result ≡ second_business (number date) }
        ensures plain { SecondAfter (number date) (option_map day_no result) }
    {
        BusinessDay::after(BusinessDay::after(date)?.date)
    }

    // From which day a report of day T that is entered today is expected to find its other side; none where that day
    // lies past 2099.
    pub fn due(day_t: Date, today: BusinessDay) -> Option<BusinessDay>
        ensures { option_map day_no result ≡ due_day (number day_t) (day_no today) }
    {
        let second = BusinessDay::second_after(day_t)?;
        let next = BusinessDay::after(today.date)?;
        Some(second.max(next))
    }
}
