// Where the open book stands.
use desk::opening::OpenBook;

// The open book, if there is one: no `Option`, since the borrow checker does not follow a book in a type argument.
#[derive(Drop)]
pub enum Shelf<'t> {
    Empty,
    Holds(OpenBook<'t>),
}
