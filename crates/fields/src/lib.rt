// One-letter fields and the other counterparty: values that keep their rule from the moment they are read.
#![tactic(auto)]

pub mod field;
pub mod laws;
pub mod letter;
pub mod party;
