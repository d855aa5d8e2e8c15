// The language of journals: lines, words, and the escapes that let a word hold any byte.
#![tactic(auto)]

pub mod escapes;
pub mod lines;
pub mod words;
