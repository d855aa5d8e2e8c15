// Refusals: why a call is turned down, and how its sender is told.
#![tactic(auto)]

pub mod refusal;
pub mod tag;
