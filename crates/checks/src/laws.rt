// Theorems on the checks, the contract of a function that computes nothing.
ghost use Rattle.checks.specs.Laws.{CheckLaws};

// Each check finds the same at each field with its reports exchanged.
#[tactic(auto, using(crate::proofs::Exchanged::laws))]
pub fn check_laws()
    ensures { CheckLaws }
{}
