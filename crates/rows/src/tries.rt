// How often a row looked for its mirror in vain.
ghost use Rattle.std.specs.Prelude.{◌≡◌, ◌+◌, ◌≤◌, min, ◌==◌};

// After so many closes without a mirror a row lapses.
pub const MOST_TRIES: u8 = 7;

#[derive(Clone, Copy, Debug, PartialEq, Eq)]
pub struct Tries {
    count: u8,
    ghost most: { count ≤ 7 },
}

impl Tries {
    pub fn none() -> Tries
        ensures { result.count ≡ 0 }
    {
        Tries { count: 0 }
    }

    pub fn count(self) -> u8
        ensures { result ≡ self.count }
    {
        self.count
    }

    pub fn are_spent(self) -> bool
        ensures { result ≡ (self.count == 7) }
    {
        self.count == MOST_TRIES
    }

    // One try more; spent tries stay so.
    pub fn one_more(self) -> Tries
        ensures { result.count ≡ min (self.count + 1) 7 }
    {
        Tries {
            count: (self.count + 1).min(MOST_TRIES),
        }
    }
}
