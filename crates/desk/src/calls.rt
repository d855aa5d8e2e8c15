// Calls on a book, and what is told of each.
ghost use Rattle.std.specs.Prelude.{◌≡◌, IfOk, map, min, string_bytes};
ghost use Rattle.business.specs.BusinessDays.{day_no};
ghost use Rattle.closing.specs.Lists.{lists_of};
ghost use Rattle.judging.specs.Lines.{notice_told};
ghost use Rattle.rules.specs.Books.{closed};
ghost use Rattle.desk.specs.Told.{TellsClose, TellsLookup, TellsReport, answer_text, used_text};

use book::book::Book;
use book_texts::notice::list_notices;
use book_texts::row::list_rows;
use book_texts::shown::shown_text;
use business::business_day::BusinessDay;
use codes::code::{Country, Lei};
use rows::notice::Notice;
use rules::room::MOST_ROWS;
use sheets::comparing::PLACES;
use sheets::finding::Finding;
use sheets::sheet::Sheet;
use std::alloc::{AllocError, Global};

// Hands the bytes of a slip to the book.
pub fn report_slip(alloc: Global, book: &mut Book<'_>, slip: &[u8]) -> Result<String, AllocError>
    ensures { IfOk result (λ s. TellsReport slip.now book.old book.new (string_bytes s)) }
{
    match book.report(slip) {
        Ok(()) => format!(in alloc; "accepted"),
        Err(refusal) => format!(in alloc; "{refusal}"),
    }
}

// What an accepted close comes to.
#[tactic(auto, using(crate::proofs::Told::as_told, crate::proofs::Told::count_told))]
fn tell_close(
    alloc: Global,
    notices: &[Notice],
    pairs: usize,
    next_day: BusinessDay,
) -> Result<String, AllocError>
    ensures { IfOk result (λ s. string_bytes s ≡ answer_text (closed (map notice_told notices.now) pairs (day_no next_day))) }
{
    let count = notices.len();
    let date = next_day.date();
    let lines = list_notices(alloc, notices)?;
    format!(in alloc; "{count} notices, {pairs} pairs taken up, next day {date}{lines}")
}

// Closes the day, with so many places for notices. A book has no more than 4,096 rows, and never needs more places.
pub fn close_day<S: Sheet>(
    alloc: Global,
    book: &mut Book<'_>,
    sheet: &S,
    parties: &[Lei],
    countries: &[Country],
    places: usize,
) -> Result<String, AllocError>
    ensures { IfOk result (λ s. TellsClose (S.meaning sheet.now) (lists_of parties.now countries.now (min places 4096)) book.old book.new (string_bytes s)) }
{
    let mut notices = vec![in alloc; Notice::blank(); places.min(MOST_ROWS)]?;
    let notices = notices.as_mut_slice();
    match book.close(sheet, parties, countries, notices) {
        Ok((sent, pairs, next_day)) => {
            let sent = sent.min(notices.len());
            tell_close(alloc, &notices[..sent], pairs, next_day)
        }
        Err(refusal) => format!(in alloc; "{refusal}"),
    }
}

// What the row of a key shows.
pub fn look_up(
    alloc: Global,
    book: &Book<'_>,
    trade: &[u8],
    reporter: &[u8],
    other: &[u8],
) -> Result<String, AllocError>
    ensures { IfOk result (λ s. TellsLookup book.now trade.now reporter.now other.now (string_bytes s)) }
{
    let mut findings = [Finding::NotCompared; PLACES];
    match book.lookup(trade, reporter, other, &mut findings) {
        Ok(state) => shown_text(alloc, state, &findings),
        Err(refusal) => format!(in alloc; "{refusal}"),
    }
}

// The used rows of the book.
pub fn list_used(alloc: Global, book: &Book<'_>) -> Result<String, AllocError>
    ensures { IfOk result (λ s. string_bytes s ≡ used_text book.now) }
{
    list_rows(alloc, book.rows())
}
