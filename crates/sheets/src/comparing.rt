// The full comparison of two reports, under any sheet.
ghost use Rattle.std.specs.Prelude.{◌≡◌, length, map};
ghost use Rattle.std.specs.List.{range_with_len};
ghost use Rattle.sheets.specs.Findings.{finding_numbers, state_text};
ghost use Rattle.sheets.specs.Sheets.{findings_of, some_differ, state_by, state_of};

use crate::finding::{Category, Finding, PairState};
use crate::sheet::Sheet;
use report::details::Details;

// The findings that a comparison has room for, whatever the sheet.
pub const PLACES: usize = 64;

// What comparing two reports comes to: a finding for each place, and the state that the pair gets.
#[derive(Clone, Copy)]
pub struct Comparison {
    pub findings: [Finding; PLACES],
    pub state: PairState,
}

// Fills places with the findings of two reports.
#[tactic(auto, using(crate::proofs::Filling::next_down, crate::proofs::Filling::all_down))]
fn fill<S: Sheet>(sheet: &S, first: &Details, second: &Details, places: &mut [Finding])
    ensures { places.new ≡ map (λ i. (S.meaning sheet.now).finding i first.now second.now) (range_with_len 0 (length places.old)) }
{
    for place in 0..places.len() {
        places[place] = sheet.finding(place, first, second);
    }
}

// The finding at each place.
#[tactic(auto, using(crate::proofs::Exchanged::all_places))]
fn findings<S: Sheet>(sheet: &S, first: &Details, second: &Details) -> [Finding; PLACES]
    ensures { result ≡ findings_of (S.meaning sheet.now) first.now second.now }
{
    let mut findings = [Finding::NotCompared; PLACES];
    fill(sheet, first, second, &mut findings);
    findings
}

// Whether one of these findings tells that a field of this category differs.
fn some_differ<S: Sheet>(sheet: &S, category: Category, findings: &[Finding]) -> bool
    ensures { result ≡ some_differ (S.meaning sheet.now) category 0 findings.now }
{
    for field in 0..findings.len() {
        if findings[field] == Finding::Differs && sheet.category(field) == category {
            return true;
        }
    }
    false
}

// The state of a pair with these findings, for one that is not compared anew too.
pub fn pair_state<S: Sheet>(sheet: &S, findings: &[Finding]) -> PairState
    ensures { state_text result ≡ state_text (state_by (S.meaning sheet.now) findings.now) }
{
    if some_differ(sheet, Category::First, findings) {
        PairState::Err1
    } else if some_differ(sheet, Category::Second, findings) {
        PairState::Err2
    } else {
        PairState::Mach
    }
}

// Compares two reports in full. Which of them comes first makes no difference.
#[tactic(auto, using(crate::proofs::Exchanged::findings_exchanged, crate::proofs::Exchanged::state_exchanged))]
pub fn compare<S: Sheet>(sheet: &S, first: &Details, second: &Details) -> Comparison
    ensures findings { finding_numbers result.findings ≡ finding_numbers (findings_of (S.meaning sheet.now) first.now second.now) }
    ensures state { state_text result.state ≡ state_text (state_of (S.meaning sheet.now) first.now second.now) }
    ensures findings_exchanged { findings_of (S.meaning sheet.now) second.now first.now ≡ findings_of (S.meaning sheet.now) first.now second.now }
    ensures state_exchanged { state_of (S.meaning sheet.now) second.now first.now ≡ state_of (S.meaning sheet.now) first.now second.now }
{
    let findings = findings(sheet, first, second);
    let state = pair_state(sheet, &findings);
    Comparison { findings, state }
}
