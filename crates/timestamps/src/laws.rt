// Theorems on timestamps, the contract of a function that computes nothing.
ghost use Rattle.timestamps.specs.Laws.{TimestampLaws};

// Instants and texts give each other, and both checks give the same answer with their sides exchanged.
pub fn timestamp_laws()
    ensures { TimestampLaws }
{}
