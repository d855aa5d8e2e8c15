// Worked examples as theorems, apart from the crates that they speak of, since they take long to compute.
#![tactic(auto)]

ghost use Rattle.worked.specs.Worked.{WorkedExamples};

// The checks on timestamps and the TARGET calendar on worked examples.
pub fn worked_examples()
    ensures { WorkedExamples }
{}
