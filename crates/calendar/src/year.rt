// A year from 2000 to 2099.
ghost use Rattle.std.specs.Prelude.{◌≤◌};

mod days;
pub mod number;

#[derive(Clone, Copy, Debug, PartialEq, Eq, PartialOrd, Ord)]
pub struct Year {
    pub(crate) number: u16,
    ghost first: { 2000 ≤ number },
    ghost last: { number ≤ 2099 },
}
