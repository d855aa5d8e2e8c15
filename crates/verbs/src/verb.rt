// What a line of a journal can ask for.
ghost use Rattle.std.specs.Prelude.{Some, codes};

pub mod word;

use amount_words::comparison::AmountCheck;
use std::error::Error;
use std::fmt;

#[derive(Clone, Copy, Debug)]
pub enum Verb {
    // two amounts, under a check
    Compare(AmountCheck),
    // what the calendar tells of a day
    Day,
    // the fields of a slip
    Slip,
    // a report, as it is written again
    Write,
    // the sheet for the calls that follow
    Sheet,
    // two slips, under the sheet
    CompareSlips,
    // a new book
    Open,
    // entries of the register of LEIs
    Register,
    // entries of the list of countries
    Countries,
    // a report, for the book
    Report,
    // the end of the book's day
    Close,
    // what a row of the book shows
    Lookup,
    // the used rows of the book
    Rows,
}

// A word that names no verb.
#[derive(Clone, Copy, Debug)]
pub struct UnknownVerb;

impl fmt::Display for UnknownVerb {
    ghost output = { λ _. Some (codes "unknown verb") };

    fn fmt<W: fmt::Write>(&self, f: &mut fmt::Formatter<W>) -> fmt::Result {
        write!(f, "unknown verb")
    }
}

impl Error for UnknownVerb {}
