// The rules of a book as definitions: what a close finds of each row, and what every call answers and leaves. The crates
// that carry them out, and the law over whole runs, cite them.
#![tactic(auto)]

pub mod room;
