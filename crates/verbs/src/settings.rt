// What is kept from line to line besides the book.
use built_sheets::chosen::ChosenSheet;
use codes::code::{Country, Lei};
use desk::opening::Opening;

#[derive(Drop)]
pub struct Settings {
    // for slips that are compared, and for the next book: an open one keeps its own
    pub sheet: ChosenSheet,
    // the register of LEIs
    pub parties: Vec<Lei>,
    pub countries: Vec<Country>,
    // the book that is to be opened before the next line, if any: a book borrows its rows, so that whoever has them
    // opens it
    pub opening: Option<Opening>,
}
