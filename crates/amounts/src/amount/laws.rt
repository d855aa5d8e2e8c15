// Theorems on amounts, each the contract of a function that computes nothing.
ghost use Rattle.amounts.specs.Laws.{AmountLaws};
ghost use Rattle.amounts.specs.Worked.{WorkedExamples};

// Each value has one representation, and every check gives the same answer with its sides exchanged.
#[tactic(auto, using(crate::proofs::Laws::laws))]
pub fn amount_laws()
    ensures { AmountLaws }
{}

// The published checks on the examples that people argue about, and the text that was once taken for absent.
pub fn worked_examples()
    ensures { WorkedExamples }
{}
