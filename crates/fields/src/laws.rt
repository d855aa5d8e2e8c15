// Theorems on the other counterparty, the contract of a function that computes nothing.
ghost use Rattle.fields.specs.Laws.{PartyLaws};

// A party and its kind and text give each other.
#[tactic(auto, using(crate::proofs::PartyLaws::laws))]
pub fn party_laws()
    ensures { PartyLaws }
{}
