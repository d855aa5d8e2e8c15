// What a comparison finds, and how much it weighs.
ghost use Rattle.std.specs.Prelude.{◌≡◌, Some};
ghost use Rattle.sheets.specs.Findings.{category_number, finding_number, state_text};

use std::fmt;

// What comparing a field of two reports comes to: a word of our own. The numbers are those that answers print.
#[derive(Clone, Copy, Debug, PartialEq, Eq)]
pub enum Finding {
    Matches = 0,
    Differs = 1,
    NotCompared = 2,
}

impl From<Finding> for u8 {
    ghost from_gives = { λ finding n. n ≡ finding_number finding };

    fn from(finding: Finding) -> u8 {
        finding as u8
    }
}

// The weight of a field: one of the first category that differs is an error of kind 1, one of the second of kind 2, and
// those of the third are not compared.
#[derive(Clone, Copy, Debug, PartialEq, Eq)]
pub enum Category {
    First = 1,
    Second = 2,
    Third = 3,
}

impl From<Category> for u8 {
    ghost from_gives = { λ category n. n ≡ category_number category };

    fn from(category: Category) -> u8 {
        category as u8
    }
}

// The state that a comparison gives a pair.
#[derive(Clone, Copy, Debug, PartialEq, Eq)]
pub enum PairState {
    // no field differs
    Mach,
    // a field of the first category differs
    Err1,
    // fields differ, but none of the first category
    Err2,
}

impl fmt::Display for PairState {
    ghost output = { λ state. Some (state_text state) };

    fn fmt<W: fmt::Write>(&self, f: &mut fmt::Formatter<W>) -> fmt::Result {
        f.write_str(match self {
            PairState::Mach => "MACH",
            PairState::Err1 => "ERR1",
            PairState::Err2 => "ERR2",
        })
    }
}
