// Theorems on comparisons, the contract of a function that computes nothing.
ghost use Rattle.sheets.specs.Laws.{ComparisonLaws};

// The states in plain terms: MACH where no field differs, ERR1 exactly where one of the first category does, and ERR2
// where, of those that differ, none is of the first.
#[tactic(auto, using(crate::proofs::Told::laws))]
pub fn comparison_laws()
    ensures { ComparisonLaws }
{}
