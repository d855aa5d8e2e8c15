// The program's own lists: the register of LEIs and the countries.
ghost use Rattle.std.specs.Prelude.{◌≡◌, ◌++◌, codes, decimal, IfOk, IfErr, OnOk, OnErr, Ok, Err, alloc_error, map, string_bytes, vec_items, Some};
ghost use Rattle.refusals.specs.Words.{parts_of};
ghost use Rattle.codes.specs.Codes.{text_of};
ghost use Rattle.desk.specs.Lists.{countries_read, list_after, list_text, parties_read};
ghost use Rattle.desk.specs.Refused.{IfRefused, error_text};
ghost use Rattle.desk.specs.declared.lists.ListError.TheVariants.{OutOfMemory, Refused};

use codes::code::{Country, Lei};
use codes::host::{list_country, register_lei};
use refusals::refusal::Refusal;
use std::alloc::{AllocError, AllocFailed, Global};
use std::error::Error;
use std::fmt;

// Why no codes were read.
#[derive(Debug, Drop)]
enum ListError {
    Refused(Refusal),
    OutOfMemory(AllocError),
}

impl From<Refusal> for ListError {
    ghost from_gives = { λ refusal e. e ≡ Refused refusal };

    fn from(refusal: Refusal) -> ListError {
        ListError::Refused(refusal)
    }
}

impl<T: Drop> From<AllocFailed<T>> for ListError {
    ghost from_gives = { λ _ e. e ≡ OutOfMemory alloc_error };

    fn from(failed: AllocFailed<T>) -> ListError {
        ListError::OutOfMemory(AllocError::from(failed))
    }
}

impl fmt::Display for ListError {
    ghost output = { λ e. Some (error_text e) };

    fn fmt<W: fmt::Write>(&self, f: &mut fmt::Formatter<W>) -> fmt::Result {
        match self {
            ListError::Refused(refusal) => write!(f, "{refusal}"),
            ListError::OutOfMemory(_) => write!(f, "out of memory"),
        }
    }
}

impl Error for ListError {}

// The LEIs that words are, in their order.
fn read_parties(alloc: Global, words: &[Vec<u8>]) -> Result<Vec<Lei>, ListError>
    ensures read { IfOk result (λ parties. parties_read (map vec_items words.now) ≡ Ok (map text_of parties.items)) }
    ensures refused { IfErr result (λ e. IfRefused e (λ refusal. parties_read (map vec_items words.now) ≡ Err (parts_of refusal))) }
{
    let mut parties = Vec::new(alloc);
    for word in words {
        parties.push(register_lei(word.as_slice())?)?;
    }
    Ok(parties)
}

// The countries that words are, in their order.
fn read_countries(alloc: Global, words: &[Vec<u8>]) -> Result<Vec<Country>, ListError>
    ensures read { IfOk result (λ countries. countries_read (map vec_items words.now) ≡ Ok (map text_of countries.items)) }
    ensures refused { IfErr result (λ e. IfRefused e (λ refusal. countries_read (map vec_items words.now) ≡ Err (parts_of refusal))) }
{
    let mut countries = Vec::new(alloc);
    for word in words {
        countries.push(list_country(word.as_slice())?)?;
    }
    Ok(countries)
}

// How many entries a list has.
fn tell_entries(alloc: Global, count: usize) -> Result<String, AllocError>
    ensures { IfOk result (λ s. string_bytes s ≡ decimal count ++ codes " entries") }
{
    format!(in alloc; "{count} entries")
}

// Adds LEIs to the register and tells how many it has in all; no words at all empty it. None is added if one is refused.
#[tactic(auto, using(crate::proofs::Reading::counted))]
pub fn register(
    alloc: Global,
    parties: &mut Vec<Lei>,
    words: &[Vec<u8>],
) -> Result<String, AllocError>
    ensures told { IfOk result (λ s. string_bytes s ≡ list_text (map text_of parties.old.items) (map vec_items words.now) (parties_read (map vec_items words.now))) }
    ensures listed { OnOk result (map text_of parties.new.items ≡ list_after (map text_of parties.old.items) (map vec_items words.now) (parties_read (map vec_items words.now))) }
    ensures kept { OnErr result (parties.new.items ≡ parties.old.items) }
{
    let [_, ..] = words else {
        let told = tell_entries(alloc, 0)?;
        parties.clear();
        return Ok(told);
    };
    let mut added = match read_parties(alloc, words) {
        Ok(added) => added,
        Err(ListError::Refused(refusal)) => return format!(in alloc; "{refusal}"),
        Err(ListError::OutOfMemory(error)) => return Err(error),
    };
    let told = tell_entries(alloc, parties.len() + added.len())?;
    parties.append(&mut added)?;
    Ok(told)
}

// Adds countries to the list, as entries are added to the register.
#[tactic(auto, using(crate::proofs::Reading::counted))]
pub fn list_countries(
    alloc: Global,
    countries: &mut Vec<Country>,
    words: &[Vec<u8>],
) -> Result<String, AllocError>
    ensures told { IfOk result (λ s. string_bytes s ≡ list_text (map text_of countries.old.items) (map vec_items words.now) (countries_read (map vec_items words.now))) }
    ensures listed { OnOk result (map text_of countries.new.items ≡ list_after (map text_of countries.old.items) (map vec_items words.now) (countries_read (map vec_items words.now))) }
    ensures kept { OnErr result (countries.new.items ≡ countries.old.items) }
{
    let [_, ..] = words else {
        let told = tell_entries(alloc, 0)?;
        countries.clear();
        return Ok(told);
    };
    let mut added = match read_countries(alloc, words) {
        Ok(added) => added,
        Err(ListError::Refused(refusal)) => return format!(in alloc; "{refusal}"),
        Err(ListError::OutOfMemory(error)) => return Err(error),
    };
    let told = tell_entries(alloc, countries.len() + added.len())?;
    countries.append(&mut added)?;
    Ok(told)
}
