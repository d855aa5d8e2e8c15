// A report: what the fields of a slip say.
#![tactic(auto)]

pub mod details;
pub mod laws;
pub mod parties;
mod presence;
pub mod report;
mod values;
