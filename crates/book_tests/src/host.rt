// A host that lends its rows for a day.
ghost use Rattle.std.specs.Prelude.{◌≡◌, drop, length};
ghost use Rattle.business.specs.BusinessDays.{day_no};
ghost use Rattle.closing.specs.Lists.{lists_of};
ghost use Rattle.rows.specs.Keys.{key_named};
ghost use Rattle.book_tests.specs.Days.{Goes};

use book::book::Book;
use business::business_day::BusinessDay;
use codes::code::{Country, Lei};
use refusals::refusal::Refusal;
use rows::notice::Notice;
use rows::row::Row;
use rows::state::State;
use sheets::comparing::PLACES;
use sheets::finding::Finding;
use sheets::sheet::Sheet;

// The slips that come in on the day, and the key that is looked up when it is closed.
#[derive(Clone, Copy)]
pub struct Received<'t> {
    pub first: &'t [u8],
    pub second: &'t [u8],
    pub trade: &'t [u8],
    pub reporter: &'t [u8],
    pub other: &'t [u8],
}

// What a close is given besides its sheet.
#[derive(Clone, Copy)]
pub struct Lists<'t> {
    pub parties: &'t [Lei],
    pub countries: &'t [Country],
}

// What the book answered.
#[derive(Clone, Copy)]
pub struct Answers {
    pub first: Result<(), Refusal>,
    pub second: Result<(), Refusal>,
    pub close: Result<(usize, usize, BusinessDay), Refusal>,
    pub lookup: Result<State, Refusal>,
}

// A day of a book over the host's rows: it opens, takes two reports, closes the day and looks a row up, whatever is refused.
pub fn run_day<S: Sheet>(
    rows: &mut [Row],
    day: BusinessDay,
    received: Received,
    sheet: &S,
    lists: Lists,
    notices: &mut [Notice],
    findings: &mut [Finding; PLACES],
) -> Answers
    ensures goes { Goes (record { sheet = S.meaning sheet.now; day = day_no day; rows = length rows.old }) received.entry (lists_of lists.entry.parties.now lists.entry.countries.now (length notices.old)) rows.new notices.new findings.new result }
    ensures behind { drop 4096 rows.new ≡ drop 4096 rows.old }
{
    let mut book = Book::open(day, rows);
    let first = book.report(received.first);
    let second = book.report(received.second);
    let close = book.close(sheet, lists.parties, lists.countries, notices);
    let lookup = book.lookup(received.trade, received.reporter, received.other, findings);
    Answers {
        first,
        second,
        close,
        lookup,
    }
}
