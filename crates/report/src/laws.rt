// Theorems on reports, the contract of a function that computes nothing.
ghost use Rattle.report.specs.Laws.{ReportLaws};

// The texts of a slip say one report and no other, and reading has one answer. Of several fields at fault a refusal names
// the first.
#[tactic(auto, using(crate::proofs::OneReport::laws))]
pub fn report_laws()
    ensures { ReportLaws }
{}
