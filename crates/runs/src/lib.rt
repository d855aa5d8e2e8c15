// The law of books over whole runs, as a theorem on the definitions that a book's contracts cite.
#![tactic(auto)]

pub mod laws;
