// Days of the years 2000 to 2099, and Easter.
#![tactic(auto)]

pub mod date;
pub mod laws;
pub mod year;
