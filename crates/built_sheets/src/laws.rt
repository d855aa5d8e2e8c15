// Theorems on the sheets that are built, the contract of a function that computes nothing.
ghost use Rattle.built_sheets.specs.Laws.{SheetLaws};

// The published rows stand in the order of the positions, and their checks fit.
#[tactic(auto, using(crate::proofs::Agreeing::laws))]
pub fn sheet_laws()
    ensures { SheetLaws }
{}
