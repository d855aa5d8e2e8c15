// Answers the calls that set what later lines are run with.
ghost use Rattle.std.specs.Prelude.{◌≡◌, ◌++◌, codes, map, IfOk, IfErr, OnOk, string_bytes, vec_items};
ghost use Rattle.std.specs.Option.{option_map};
ghost use Rattle.codes.specs.Codes.{text_of};
ghost use Rattle.desk.specs.Lists.{countries_read, list_after, parties_read};
ghost use Rattle.desk.specs.Openings.{client_bytes, opened_by, opening_read, opening_text};
ghost use Rattle.verbs.specs.Answers.{Says, countries_answer, no_call, open_answer, register_answer};
ghost use Rattle.verbs.specs.Chosen.{asked_for, opening_after};
ghost use Rattle.verbs.specs.Faults.{IfNoCall};

use crate::fault::Fault;
use crate::number_words::read_count;
use crate::verb::Verb;
use built_sheets::chosen::ChosenSheet;
use codes::code::{Country, Lei};
use desk::lists::{list_countries, register};
use desk::opening::Opening;
use rules::room::MOST_ROWS;
use std::alloc::{AllocError, Global};

// The answer to a book of so many rows that is to be opened on a day, under the sheet in force.
fn open_on(
    alloc: Global,
    opening: &mut Option<Opening>,
    sheet: &ChosenSheet,
    day: &[u8],
    rows: usize,
) -> Result<String, AllocError>
    ensures answered { IfOk result (λ s. string_bytes s ≡ codes "open " ++ opening_text (opening_read (client_bytes sheet.now) day.now rows)) }
    ensures asked { OnOk result (option_map opened_by opening.new ≡ asked_for (option_map opened_by opening.old) (opening_read (client_bytes sheet.now) day.now rows)) }
{
    match Opening::read(sheet, day, rows) {
        Ok(asked) => {
            let told = format!(in alloc; "open {asked}")?;
            *opening = Some(asked);
            Ok(told)
        }
        Err(refusal) => format!(in alloc; "open {refusal}"),
    }
}

// The answer to the words that open a book.
pub fn open_answer(
    alloc: Global,
    opening: &mut Option<Opening>,
    sheet: &ChosenSheet,
    words: &[Vec<u8>],
) -> Result<String, Fault>
    ensures answered { IfOk result (λ s. Says (open_answer (client_bytes sheet.now) (map vec_items words.now)) (string_bytes s)) }
    ensures fault { IfErr result (λ f. IfNoCall f (no_call ≡ open_answer (client_bytes sheet.now) (map vec_items words.now))) }
    ensures asked { OnOk result (option_map opened_by opening.new ≡ opening_after (client_bytes sheet.now) (option_map opened_by opening.old) (map vec_items words.now)) }
    ensures unasked { IfErr result (λ f. IfNoCall f (option_map opened_by opening.old ≡ opening_after (client_bytes sheet.now) (option_map opened_by opening.old) (map vec_items words.now))) }
    ensures kept { IfErr result (λ f. IfNoCall f (opening.new ≡ opening.old)) }
{
    match words {
        [day] => Ok(open_on(alloc, opening, sheet, day.as_slice(), MOST_ROWS)?),
        [day, rows] => {
            let rows = read_count(alloc, rows.as_slice())?;
            Ok(open_on(alloc, opening, sheet, day.as_slice(), rows)?)
        }
        _ => Err(Fault::WordCount(Verb::Open, words.len())),
    }
}

// The answer to entries of the register.
pub fn register_answer(
    alloc: Global,
    parties: &mut Vec<Lei>,
    words: &[Vec<u8>],
) -> Result<String, Fault>
    ensures answered { IfOk result (λ s. Says (register_answer (map text_of parties.old.items) (map vec_items words.now)) (string_bytes s)) }
    ensures fault { IfErr result (λ f. IfNoCall f ⊥) }
    ensures listed { OnOk result (map text_of parties.new.items ≡ list_after (map text_of parties.old.items) (map vec_items words.now) (parties_read (map vec_items words.now))) }
{
    let told = register(alloc, parties, words)?;
    Ok(format!(in alloc; "register {told}")?)
}

// The answer to entries of the country list.
pub fn countries_answer(
    alloc: Global,
    countries: &mut Vec<Country>,
    words: &[Vec<u8>],
) -> Result<String, Fault>
    ensures answered { IfOk result (λ s. Says (countries_answer (map text_of countries.old.items) (map vec_items words.now)) (string_bytes s)) }
    ensures fault { IfErr result (λ f. IfNoCall f ⊥) }
    ensures listed { OnOk result (map text_of countries.new.items ≡ list_after (map text_of countries.old.items) (map vec_items words.now) (countries_read (map vec_items words.now))) }
{
    let told = list_countries(alloc, countries, words)?;
    Ok(format!(in alloc; "countries {told}")?)
}
