// Keys with a total order, and rows that have one.
ghost use Rattle.std.specs.Prelude.{◌≡◌};
ghost use Rattle.std.specs.Cmp.{IsTotalOrder};
ghost use Rattle.std.specs.declared.cmp.Ordering.{Ordering};

use std::cmp::Ordering;

// A key: any two are less, equal or greater, by a total order. It need not have an equality, and a type that has the
// library's order may be a key by another.
pub trait Key {
    // What `compare` answers.
    ghost cmp: { Self → Self → Ordering };

    fn compare(&self, other: &Self) -> Ordering
        ensures { result ≡ cmp self.now other.now };

    ghost total: { IsTotalOrder cmp };
}

// A row that is found by a key of its own, in the order of such keys.
pub trait Keyed: Copy {
    type Key: Key;

    ghost id: { Self → Self.Key };

    fn key(&self) -> &Self::Key
        ensures { result.now ≡ id self.now };
}
