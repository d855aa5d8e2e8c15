// The rows of a book: what each holds, which reports it takes, and what they make of it.
#![tactic(auto)]

pub mod day;
pub mod key;
pub mod laws;
pub mod notice;
pub mod row;
pub mod standing;
pub mod state;
#[cfg(test)]
mod tests;
pub mod tries;
