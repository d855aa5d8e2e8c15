// Two amounts compared, as a journal spells them.
#![tactic(auto)]

pub mod compare;
pub mod comparison;
