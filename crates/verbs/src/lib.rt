// The answers to the calls of a journal.
#![tactic(auto)]

pub mod answers;
mod book_answers;
pub mod fault;
mod hex_words;
mod number_words;
mod setting_answers;
pub mod settings;
pub mod shelf;
pub mod verb;
