// Reports, over the rows of a table.
#![tactic(auto)]

pub mod locate;
pub mod receive;
