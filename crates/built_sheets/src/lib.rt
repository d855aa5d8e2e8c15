// The sheets that are built: the published one, and those that clients fill.
#![tactic(auto)]

pub mod chosen;
pub mod kdpw;
pub mod laws;
pub mod row;
pub mod tabled;
