// Answers the lines of a journal.
ghost use Rattle.std.specs.Prelude.{◌≡◌, map, IfOk, IfErr, OnErr, OnOk, Some, vec_items, string_bytes};
ghost use Rattle.verbs.specs.Answers.{Keeps, Says, SaysOrPasses, answer_of, call_answer, client_sheet_said, compare_answer, day_answer, no_call, pair_answer, sheet_answer, slip_answer, text, verb_answer, write_answer};
ghost use Rattle.verbs.specs.Faults.{IfNoCall};
ghost use Rattle.verbs.specs.Chosen.{after_call, after_client, after_line, after_verb, sheet_after};
ghost use Rattle.desk.specs.Openings.{client_bytes};
ghost use Rattle.verbs.specs.Settings.{setting_of};
ghost use Rattle.verbs.specs.Shelves.{Lawful};
ghost use Rattle.built_sheets.specs.Chosen.{chosen};
ghost use Rattle.hex.specs.Hex.{decode_of};

use crate::book_answers::{close_answer, lookup_answer, report_answer, rows_answer};
use crate::fault::Fault;
use crate::hex_words::read_hex;
use crate::setting_answers::{countries_answer, open_answer, register_answer};
use crate::settings::Settings;
use crate::shelf::Shelf;
use crate::verb::Verb;
use almanac::days::look_up;
use amount_words::compare::compare_amounts;
use amount_words::comparison::AmountCheck;
use built_sheets::chosen::ChosenSheet;
use built_sheets::kdpw::KdpwSheet;
use built_sheets::tabled::TabledSheet;
use journal::escapes::escape;
use journal::lines::first_word;
use journal::words::read_words;
use listings::comparing::compare_slips;
use listings::rewriting::rewrite;
use listings::slips::list_slip;
use slip_words::spelling::spell_slip;
use std::alloc::Global;

// The answer to a pair of amounts.
fn pair_answer(alloc: Global, check: AmountCheck, words: &[Vec<u8>]) -> Result<String, Fault>
    ensures answered { IfOk result (λ s. Says (pair_answer check (map vec_items words.now)) (string_bytes s)) }
    ensures fault { IfErr result (λ f. IfNoCall f (no_call ≡ pair_answer check (map vec_items words.now))) }
{
    let [first, second] = words else {
        return Err(Fault::WordCount(Verb::Compare(check), words.len()));
    };
    match compare_amounts(check, first.as_slice(), second.as_slice()) {
        Ok(comparison) => Ok(format!(in alloc; "{check} {comparison}")?),
        Err(sent_back) => Ok(format!(in alloc; "{check} {sent_back}")?),
    }
}

// The answer to a day.
fn day_answer(alloc: Global, words: &[Vec<u8>]) -> Result<String, Fault>
    ensures answered { IfOk result (λ s. Says (day_answer (map vec_items words.now)) (string_bytes s)) }
    ensures fault { IfErr result (λ f. IfNoCall f (no_call ≡ day_answer (map vec_items words.now))) }
{
    let [word] = words else {
        return Err(Fault::WordCount(Verb::Day, words.len()));
    };
    match look_up(word.as_slice()) {
        Ok(facts) => Ok(format!(in alloc; "day {facts}")?),
        Err(refusal) => Ok(format!(in alloc; "day {refusal}")?),
    }
}

// The answer to the bytes of a slip.
fn slip_answer(alloc: Global, words: &[Vec<u8>]) -> Result<String, Fault>
    ensures answered { IfOk result (λ s. Says (slip_answer (map vec_items words.now)) (string_bytes s)) }
    ensures fault { IfErr result (λ f. IfNoCall f (no_call ≡ slip_answer (map vec_items words.now))) }
{
    let [word] = words else {
        return Err(Fault::WordCount(Verb::Slip, words.len()));
    };
    let bytes = read_hex(alloc, word.as_slice())?;
    let listed = list_slip(alloc, bytes.as_slice())?;
    Ok(format!(in alloc; "slip {listed}")?)
}

// The answer to the words of a slip.
fn write_answer(alloc: Global, words: &[Vec<u8>]) -> Result<String, Fault>
    ensures answered { IfOk result (λ s. Says (write_answer (map vec_items words.now)) (string_bytes s)) }
    ensures fault { IfErr result (λ f. IfNoCall f (no_call ≡ write_answer (map vec_items words.now))) }
{
    let bytes = spell_slip(alloc, words)?;
    let written = rewrite(alloc, bytes.as_slice())?;
    Ok(format!(in alloc; "write {written}")?)
}

// The answer to the bytes of a client's sheet, which is chosen from now on if they are one.
fn choose_tabled(alloc: Global, sheet: &mut ChosenSheet, word: &[u8]) -> Result<String, Fault>
    ensures answered { IfOk result (λ s. Says (client_sheet_said (decode_of word.now)) (string_bytes s)) }
    ensures fault { IfErr result (λ f. IfNoCall f (no_call ≡ client_sheet_said (decode_of word.now))) }
    ensures chosen { OnOk result (client_bytes sheet.new ≡ after_client (client_bytes sheet.old) (decode_of word.now)) }
    ensures no_choice { IfErr result (λ f. IfNoCall f (client_bytes sheet.old ≡ after_client (client_bytes sheet.old) (decode_of word.now))) }
    ensures kept { OnErr result (sheet.new ≡ sheet.old) }
{
    let bytes = read_hex(alloc, word)?;
    match TabledSheet::read(bytes.as_slice()) {
        Ok(tabled) => {
            let told = format!(in alloc; "sheet tabled")?;
            *sheet = ChosenSheet::Tabled(tabled);
            Ok(told)
        }
        Err(refusal) => Ok(format!(in alloc; "sheet {refusal}")?),
    }
}

// The answer to the word of a sheet, which is chosen from now on.
fn sheet_answer(alloc: Global, sheet: &mut ChosenSheet, words: &[Vec<u8>]) -> Result<String, Fault>
    ensures answered { IfOk result (λ s. Says (sheet_answer (map vec_items words.now)) (string_bytes s)) }
    ensures fault { IfErr result (λ f. IfNoCall f (no_call ≡ sheet_answer (map vec_items words.now))) }
    ensures chosen { OnOk result (client_bytes sheet.new ≡ sheet_after (client_bytes sheet.old) (map vec_items words.now)) }
    ensures no_choice { IfErr result (λ f. IfNoCall f (client_bytes sheet.old ≡ sheet_after (client_bytes sheet.old) (map vec_items words.now))) }
    ensures kept { OnErr result (sheet.new ≡ sheet.old) }
{
    let [word] = words else {
        return Err(Fault::WordCount(Verb::Sheet, words.len()));
    };
    if word.as_slice() != b"kdpw".as_slice() {
        return choose_tabled(alloc, sheet, word.as_slice());
    }
    let told = format!(in alloc; "sheet kdpw")?;
    *sheet = ChosenSheet::Kdpw(KdpwSheet);
    Ok(told)
}

// The answer to two slips.
fn compare_answer(alloc: Global, sheet: &ChosenSheet, words: &[Vec<u8>]) -> Result<String, Fault>
    ensures answered { IfOk result (λ s. Says (compare_answer (chosen sheet.now) (map vec_items words.now)) (string_bytes s)) }
    ensures fault { IfErr result (λ f. IfNoCall f (no_call ≡ compare_answer (chosen sheet.now) (map vec_items words.now))) }
{
    let [first, second] = words else {
        return Err(Fault::WordCount(Verb::CompareSlips, words.len()));
    };
    let first = read_hex(alloc, first.as_slice())?;
    let second = read_hex(alloc, second.as_slice())?;
    let compared = compare_slips(alloc, sheet, first.as_slice(), second.as_slice())?;
    Ok(format!(in alloc; "compare {compared}")?)
}

// The answer to a verb and the words behind it.
#[tactic(auto, using(crate::proofs::Saying::kept), unfolding(crate::specs::Answers::verb_answer, crate::specs::Chosen::after_verb))]
fn verb_answer(
    alloc: Global,
    settings: &mut Settings,
    shelf: &mut Shelf<'_>,
    verb: Verb,
    words: &[Vec<u8>],
) -> Result<String, Fault>
    ensures answered { IfOk result (λ s. Says (verb_answer (chosen settings.old.sheet) (setting_of settings.old) shelf.old shelf.new verb (map vec_items words.now)) (string_bytes s)) }
    ensures fault { IfErr result (λ f. IfNoCall f (no_call ≡ verb_answer (chosen settings.old.sheet) (setting_of settings.old) shelf.old shelf.new verb (map vec_items words.now))) }
    ensures book { OnOk result (Keeps (verb_answer (chosen settings.old.sheet) (setting_of settings.old) shelf.old shelf.new verb (map vec_items words.now)) shelf.old shelf.new) }
    ensures law { OnOk result (Lawful shelf.old → Lawful shelf.new) }
    ensures chosen { OnOk result (setting_of settings.new ≡ after_verb (setting_of settings.old) verb (map vec_items words.now)) }
    ensures no_choice { IfErr result (λ f. IfNoCall f (setting_of settings.old ≡ after_verb (setting_of settings.old) verb (map vec_items words.now))) }
    ensures kept { OnErr result (settings.new.sheet ≡ settings.old.sheet) }
    ensures all_kept { IfErr result (λ f. IfNoCall f ((settings.new ≡ settings.old) × (shelf.new ≡ shelf.old))) }
{
    match verb {
        Verb::Compare(check) => pair_answer(alloc, check, words),
        Verb::Day => day_answer(alloc, words),
        Verb::Slip => slip_answer(alloc, words),
        Verb::Write => write_answer(alloc, words),
        Verb::Sheet => sheet_answer(alloc, &mut settings.sheet, words),
        Verb::CompareSlips => compare_answer(alloc, &settings.sheet, words),
        Verb::Open => open_answer(alloc, &mut settings.opening, &settings.sheet, words),
        Verb::Register => register_answer(alloc, &mut settings.parties, words),
        Verb::Countries => countries_answer(alloc, &mut settings.countries, words),
        Verb::Report => report_answer(alloc, shelf, words),
        Verb::Close => close_answer(alloc, settings, shelf, words),
        Verb::Lookup => lookup_answer(alloc, shelf, words),
        Verb::Rows => rows_answer(alloc, shelf, words),
    }
}

// The answer to the words of a line.
#[tactic(auto, using(crate::proofs::Saying::kept))]
fn call_answer(
    alloc: Global,
    settings: &mut Settings,
    shelf: &mut Shelf<'_>,
    words: &[Vec<u8>],
) -> Result<String, Fault>
    ensures answered { IfOk result (λ s. Says (call_answer (chosen settings.old.sheet) (setting_of settings.old) shelf.old shelf.new (Some (map vec_items words.now))) (string_bytes s)) }
    ensures fault { IfErr result (λ f. IfNoCall f (no_call ≡ call_answer (chosen settings.old.sheet) (setting_of settings.old) shelf.old shelf.new (Some (map vec_items words.now)))) }
    ensures book { OnOk result (Keeps (call_answer (chosen settings.old.sheet) (setting_of settings.old) shelf.old shelf.new (Some (map vec_items words.now))) shelf.old shelf.new) }
    ensures law { OnOk result (Lawful shelf.old → Lawful shelf.new) }
    ensures chosen { OnOk result (setting_of settings.new ≡ after_call (setting_of settings.old) (Some (map vec_items words.now))) }
    ensures no_choice { IfErr result (λ f. IfNoCall f (setting_of settings.old ≡ after_call (setting_of settings.old) (Some (map vec_items words.now)))) }
    ensures kept { OnErr result (settings.new.sheet ≡ settings.old.sheet) }
    ensures all_kept { IfErr result (λ f. IfNoCall f ((settings.new ≡ settings.old) × (shelf.new ≡ shelf.old))) }
{
    let [verb, behind @ ..] = words else {
        return Err(Fault::NoVerb);
    };
    let Ok(verb) = Verb::try_from(verb.as_slice()) else {
        return Err(Fault::UnknownVerb(escape(alloc, verb.as_slice())?));
    };
    verb_answer(alloc, settings, shelf, verb, behind)
}

// The answer to a line, or nothing where it is blank or a comment; and what it leaves to the lines that follow. A line that
// is no call leaves all as it was.
#[tactic(auto, using(crate::proofs::Saying::says_some, crate::proofs::Saying::kept), unfolding(crate::specs::Answers::answer_of, crate::specs::Chosen::after_line))]
pub fn answer_line(
    alloc: Global,
    settings: &mut Settings,
    shelf: &mut Shelf<'_>,
    line: &[u8],
) -> Result<Option<String>, Fault>
    ensures answered { IfOk result (λ o. SaysOrPasses (answer_of (chosen settings.old.sheet) (setting_of settings.old) shelf.old shelf.new line.now) o) }
    ensures fault { IfErr result (λ f. IfNoCall f (no_call ≡ answer_of (chosen settings.old.sheet) (setting_of settings.old) shelf.old shelf.new line.now)) }
    ensures book { OnOk result (Keeps (answer_of (chosen settings.old.sheet) (setting_of settings.old) shelf.old shelf.new line.now) shelf.old shelf.new) }
    ensures law { OnOk result (Lawful shelf.old → Lawful shelf.new) }
    ensures chosen { OnOk result (setting_of settings.new ≡ after_line (setting_of settings.old) line.now) }
    ensures no_choice { IfErr result (λ f. IfNoCall f (setting_of settings.old ≡ after_line (setting_of settings.old) line.now)) }
    ensures kept { OnErr result (settings.new.sheet ≡ settings.old.sheet) }
    ensures all_kept { IfErr result (λ f. IfNoCall f ((settings.new ≡ settings.old) × (shelf.new ≡ shelf.old))) }
{
    let (first, _) = first_word(line);
    if matches!(first, [] | [b'#', ..]) {
        return Ok(None);
    }
    let words = read_words(alloc, line)?;
    Ok(Some(call_answer(alloc, settings, shelf, words.as_slice())?))
}
