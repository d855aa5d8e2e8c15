// How a book is opened.
ghost use Rattle.std.specs.Prelude.{◌≡◌, Some, length, min, take};
ghost use Rattle.std.specs.Result.{result_map_both};
ghost use Rattle.built_sheets.specs.Chosen.{chosen};
ghost use Rattle.business.specs.BusinessDays.{day_no};
ghost use Rattle.refusals.specs.Words.{parts_of};
ghost use Rattle.book.specs.Calls.{Blanks, Opens, seen};
ghost use Rattle.desk.specs.Openings.{client_bytes, opened_by, opened_text, opening_read};
ghost use Rattle.desk.specs.Running.{Runs};

use book::book::Book;
use built_sheets::chosen::ChosenSheet;
use business::business_day::BusinessDay;
use refusals::refusal::Refusal;
use rows::row::Row;
use rules::room::MOST_ROWS;
use std::fmt;

// The day on which a book begins, how many rows it is given, and the sheet that it is bound to: all its closes are under
// this one.
#[derive(Clone, Copy)]
pub struct Opening {
    pub sheet: ChosenSheet,
    pub day: BusinessDay,
    pub rows: usize,
}

// An open book, and the sheet that it was opened with.
#[derive(Drop)]
pub struct OpenBook<'t> {
    pub sheet: ChosenSheet,
    pub book: Book<'t>,
}

impl Opening {
    // On the day that a text names; a text that names none and a closed day are refused.
    pub fn read(sheet: &ChosenSheet, text: &[u8], rows: usize) -> Result<Opening, Refusal>
        ensures { result_map_both opened_by parts_of result ≡ opening_read (client_bytes sheet.now) text.now rows }
    {
        let day = BusinessDay::read(text)?;
        let sheet = *sheet;
        Ok(Opening { sheet, day, rows })
    }

    // The book, over as many of these rows as it is given.
    pub fn open<'t>(self, rows: &'t mut [Row]) -> OpenBook<'t>
        ensures bound { result.sheet ≡ self.sheet }
        ensures rows { Blanks (take (min self.rows (length rows.old)) rows.old) result.book.rows.now }
        ensures history { Opens (record { sheet = chosen self.sheet; day = day_no self.day; rows = min self.rows (length rows.old) }) (seen result.book) }
        ensures law { Runs result }
    {
        let room = self.rows.min(rows.len());
        let sheet = self.sheet;
        let book = Book::open(self.day, &mut rows[..room]);
        OpenBook { sheet, book }
    }
}

// The day, and how many rows the book uses.
impl fmt::Display for Opening {
    ghost output = { λ o. Some (opened_text (opened_by o)) };

    fn fmt<W: fmt::Write>(&self, f: &mut fmt::Formatter<W>) -> fmt::Result {
        let date = self.day.date();
        let rows = self.rows.min(MOST_ROWS);
        write!(f, "{date} {rows} rows")
    }
}
