// Sheets: what of two reports is compared, how, and how much it weighs; and the comparison under any of them.
#![tactic(auto)]

pub mod comparing;
pub mod finding;
pub mod laws;
pub mod sheet;
