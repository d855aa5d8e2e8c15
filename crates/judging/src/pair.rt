// What a close finds of two rows that are each other's mirror.
ghost use Rattle.std.specs.Prelude.{◌≡◌, not, ◌&&◌, Some};
ghost use Rattle.rows.specs.Entries.{entry_of};
ghost use Rattle.rules.specs.Judging.{comes_first, pair_findings, paired_with, stays_paired};
ghost use Rattle.judging.specs.Lines.{found};

use crate::judge::Judged;
use rows::row::{Fate, Row, Verdict};
use rows::state::State;
use rows::tries::Tries;
use sheets::comparing::{PLACES, compare, pair_state};
use sheets::finding::Finding;
use sheets::sheet::Sheet;

// Whether the pair keeps its findings.
fn is_kept(row: &Row, mirror: &Row) -> bool
    ensures { result ≡ stays_paired (entry_of row.now) (entry_of mirror.now) }
{
    row.settled && mirror.settled
}

// The findings of the pair: only one that is taken up is compared.
fn pair_findings<S: Sheet>(sheet: &S, row: &Row, mirror: &Row) -> [Finding; PLACES]
    ensures { result ≡ pair_findings (S.meaning sheet.now) (entry_of row.now) (entry_of mirror.now) }
{
    if is_kept(row, mirror) {
        return row.findings;
    }
    compare(sheet, &row.tags.details, &mirror.tags.details).findings
}

// What is found of a row whose mirror may be paired too.
#[tactic(auto, using(sheets::proofs::Named::one_state))]
pub fn paired<S: Sheet>(sheet: &S, row: &Row, mirror: &Row) -> Judged
    ensures fate { found result.fate ≡ Some (Some (paired_with (S.meaning sheet.now) (pair_findings (S.meaning sheet.now) (entry_of row.now) (entry_of mirror.now)))) }
    ensures taken_up { result.is_taken_up ≡ (not (stays_paired (entry_of row.now) (entry_of mirror.now)) && comes_first (entry_of row.now) (entry_of mirror.now)) }
{
    let findings = pair_findings(sheet, row, mirror);
    let state = State::from(pair_state(sheet, &findings));
    Judged {
        fate: Fate::Stays(Verdict {
            state,
            findings,
            tries: Tries::none(),
            paired: true,
        }),
        is_taken_up: !is_kept(row, mirror) && row.key < mirror.key,
    }
}
