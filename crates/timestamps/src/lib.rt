// Timestamps: read, written and compared.
#![tactic(auto)]

pub mod laws;
pub mod timestamp;
