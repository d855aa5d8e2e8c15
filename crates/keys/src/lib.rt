// Keys: what a row of an ordered table is found by.
#![tactic(auto)]

pub mod coded;
pub mod key;
