// What a close finds of one row.
#![tactic(auto)]

pub mod judge;
pub mod line;
pub mod notice;
mod pair;
mod partner;
