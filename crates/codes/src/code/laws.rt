// Theorems on codes, the contract of a function that computes nothing.
ghost use Rattle.codes.specs.Laws.{CodeForms, CodeLaws};

use crate::alphabet::Alphabet;

// The rule in plain terms and the order's laws; and for the codes of an alphabet, one representation for each text.
pub fn code_laws<A: Alphabet>()
    ensures laws { CodeLaws }
    ensures forms { CodeForms A A.Alphabet }
{}
