// Worked examples as one theorem: amounts, timestamps and business days, and two reports whose prices were once taken
// for the same.
#![tactic(auto)]

ghost use Rattle.examples.specs.Examples.{AllExamples};

// Every worked example holds.
pub fn all_examples()
    ensures { AllExamples }
{}
