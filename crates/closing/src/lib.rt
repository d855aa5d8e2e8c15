// The close of a day, over the rows of a table.
#![tactic(auto)]

mod passes;
pub mod table_close;
