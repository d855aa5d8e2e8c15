// The checks: how one field of two reports is compared, and what that finds.
#![tactic(auto)]

pub mod check;
pub mod field;
pub mod judging;
pub mod laws;
pub mod value;
