// What a journal's calls on a book and on the program's own lists come to, as it is told.
#![tactic(auto)]

pub mod calls;
pub mod lists;
pub mod number;
pub mod opening;
