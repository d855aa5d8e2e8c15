// The law, the contract of a function that computes nothing.
ghost use Rattle.runs.specs.Law.{BookLaw};

// It stands after every history of every opening.
pub fn book_law()
    ensures { BookLaw }
{}
