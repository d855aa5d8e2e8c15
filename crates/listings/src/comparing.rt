// Two slips compared.
ghost use Rattle.std.specs.Prelude.{◌≡◌, ◌++◌, IfOk, OnOk, string_bytes};
ghost use Rattle.listings.specs.Compared.{TellsCompared, findings_text};

use report::report::Report;
use sheets::comparing::compare;
use sheets::finding::Finding;
use sheets::sheet::Sheet;
use std::alloc::{AllocError, Global};

// A digit for each finding.
pub fn push_findings(out: &mut String, findings: &[Finding]) -> Result<(), AllocError>
    ensures { OnOk result (string_bytes out.new ≡ string_bytes out.old ++ findings_text findings.now) }
{
    for finding in findings {
        let number = u8::from(*finding);
        write!(out, "{number}")?;
    }
    Ok(())
}

// What comparing two slips under a sheet comes to, where both are reports; or the refusal of one that is none.
#[tactic(auto, using(crate::proofs::Judged::first_refused))]
pub fn compare_slips<S: Sheet>(
    alloc: Global,
    sheet: &S,
    first: &[u8],
    second: &[u8],
) -> Result<String, AllocError>
    ensures { IfOk result (λ s. TellsCompared (S.meaning sheet.now) first.now second.now (string_bytes s)) }
{
    let first = match Report::read(first) {
        Ok(report) => report,
        Err(refusal) => return format!(in alloc; "{refusal} first"),
    };
    let second = match Report::read(second) {
        Ok(report) => report,
        Err(refusal) => return format!(in alloc; "{refusal} second"),
    };
    let comparison = compare(sheet, &first.details, &second.details);
    let state = comparison.state;
    let mut out = format!(in alloc; "{state} ")?;
    push_findings(&mut out, &comparison.findings)?;
    Ok(out)
}
