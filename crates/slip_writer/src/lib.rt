// The slip writer: a report laid out as the slip that reads back as it.
#![tactic(auto)]

mod field_text;
pub mod text;
pub mod write;
