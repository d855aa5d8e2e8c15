// Rows of one kind, in the order of their keys, over memory that somebody lends.
#![tactic(auto)]

pub mod closing;
pub mod container;
pub mod insertion;
pub mod order;
pub mod register;
