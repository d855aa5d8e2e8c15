// Bytes as text: ASCII, decimal digits, and numbers with a mark between them.
#![tactic(auto)]

pub mod ascii;
pub mod digits;
pub mod numbers;
