// The book: reports, closes and lookups over the rows that a host lends.
#![tactic(auto)]

pub mod book;
