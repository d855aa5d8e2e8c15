// What is told of slips: their fields, a report as it is written again, and two slips compared.
#![tactic(auto)]

pub mod comparing;
pub mod rewriting;
pub mod slips;
