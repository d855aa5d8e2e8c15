// Business days by the TARGET calendar, and the days on which reports are due.
#![tactic(auto)]

pub mod business_day;
