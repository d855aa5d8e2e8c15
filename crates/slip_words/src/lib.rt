// The bytes of a slip, given by words.
#![tactic(auto)]

pub mod fault;
mod field;
mod layout;
pub mod spelling;
