// Answers the calls on a book.
ghost use Rattle.std.specs.Prelude.{◌≡◌, map, IfOk, IfErr, OnOk, Some, None, string_bytes, vec_items};
ghost use Rattle.verbs.specs.Answers.{Says, close_answer, lookup_answer, no_call, report_answer, rows_answer};
ghost use Rattle.verbs.specs.Faults.{IfNoCall};
ghost use Rattle.verbs.specs.Settings.{setting_of};
ghost use Rattle.verbs.specs.Shelves.{Lawful, SameSheet};
ghost use Rattle.verbs.specs.Words.{places_given};

use crate::fault::Fault;
use crate::number_words::read_count;
use crate::settings::Settings;
use crate::shelf::Shelf;
use crate::verb::Verb;
use desk::calls::{close_day, list_used, look_up, report_slip};
use desk::opening::OpenBook;
use rules::room::MOST_ROWS;
use slip_words::spelling::spell_slip;
use std::alloc::Global;

// The answer to the words of a report.
pub fn report_answer(
    alloc: Global,
    shelf: &mut Shelf<'_>,
    words: &[Vec<u8>],
) -> Result<String, Fault>
    ensures answered { IfOk result (λ s. Says (report_answer shelf.old shelf.new (map vec_items words.now)) (string_bytes s)) }
    ensures fault { IfErr result (λ f. IfNoCall f (no_call ≡ report_answer shelf.old shelf.new (map vec_items words.now))) }
    ensures bound { OnOk result (SameSheet shelf.old shelf.new) }
    ensures law { OnOk result (Lawful shelf.old → Lawful shelf.new) }
    ensures kept { IfErr result (λ f. IfNoCall f (shelf.new ≡ shelf.old)) }
{
    let Shelf::Holds(OpenBook { book, .. }) = shelf else {
        return Err(Fault::NoBook);
    };
    let bytes = spell_slip(alloc, words)?;
    let told = report_slip(alloc, book, bytes.as_slice())?;
    Ok(format!(in alloc; "report {told}")?)
}

// How many places for notices a close is given.
fn read_places(alloc: Global, words: &[Vec<u8>]) -> Result<usize, Fault>
    ensures places { IfOk result (λ n. places_given (map vec_items words.now) ≡ Some n) }
    ensures fault { IfErr result (λ f. IfNoCall f (places_given (map vec_items words.now) ≡ None)) }
{
    match words {
        [] => Ok(MOST_ROWS),
        [word] => read_count(alloc, word.as_slice()),
        _ => Err(Fault::WordCount(Verb::Close, words.len())),
    }
}

// The answer to the words of a close, which is under the sheet that the book was opened with.
pub fn close_answer(
    alloc: Global,
    settings: &Settings,
    shelf: &mut Shelf<'_>,
    words: &[Vec<u8>],
) -> Result<String, Fault>
    ensures answered { IfOk result (λ s. Says (close_answer (setting_of settings.now) shelf.old shelf.new (map vec_items words.now)) (string_bytes s)) }
    ensures fault { IfErr result (λ f. IfNoCall f (no_call ≡ close_answer (setting_of settings.now) shelf.old shelf.new (map vec_items words.now))) }
    ensures bound { OnOk result (SameSheet shelf.old shelf.new) }
    ensures law { OnOk result (Lawful shelf.old → Lawful shelf.new) }
    ensures kept { IfErr result (λ f. IfNoCall f (shelf.new ≡ shelf.old)) }
{
    let Shelf::Holds(held) = shelf else {
        return Err(Fault::NoBook);
    };
    let places = read_places(alloc, words)?;
    let parties = settings.parties.as_slice();
    let countries = settings.countries.as_slice();
    let told = close_day(
        alloc,
        &mut held.book,
        &held.sheet,
        parties,
        countries,
        places,
    )?;
    Ok(format!(in alloc; "close {told}")?)
}

// The answer to the three texts of a key.
pub fn lookup_answer(alloc: Global, shelf: &Shelf<'_>, words: &[Vec<u8>]) -> Result<String, Fault>
    ensures answered { IfOk result (λ s. Says (lookup_answer shelf.now (map vec_items words.now)) (string_bytes s)) }
    ensures fault { IfErr result (λ f. IfNoCall f (no_call ≡ lookup_answer shelf.now (map vec_items words.now))) }
{
    let Shelf::Holds(held) = shelf else {
        return Err(Fault::NoBook);
    };
    let [trade, reporter, other] = words else {
        return Err(Fault::WordCount(Verb::Lookup, words.len()));
    };
    let told = look_up(
        alloc,
        &held.book,
        trade.as_slice(),
        reporter.as_slice(),
        other.as_slice(),
    )?;
    Ok(format!(in alloc; "lookup {told}")?)
}

// The answer to a question for the rows, which takes no words.
pub fn rows_answer(alloc: Global, shelf: &Shelf<'_>, words: &[Vec<u8>]) -> Result<String, Fault>
    ensures answered { IfOk result (λ s. Says (rows_answer shelf.now (map vec_items words.now)) (string_bytes s)) }
    ensures fault { IfErr result (λ f. IfNoCall f (no_call ≡ rows_answer shelf.now (map vec_items words.now))) }
{
    let Shelf::Holds(held) = shelf else {
        return Err(Fault::NoBook);
    };
    let [] = words else {
        return Err(Fault::WordCount(Verb::Rows, words.len()));
    };
    let told = list_used(alloc, &held.book)?;
    Ok(format!(in alloc; "rows {told}")?)
}
