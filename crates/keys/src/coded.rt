// Codes as keys: each is a row that is found by itself, in the order of the texts.
ghost use Rattle.std.proofs.Common.{rules};
ghost use Rattle.std.specs.Cmp.Rules.{comparing};
ghost use Rattle.std.specs.Ordering.{on};
ghost use Rattle.codes.specs.Codes.{text_of, text_order};

use crate::key::{Key, Keyed};
use codes::alphabet::Alphabet;
use codes::code::Code;
use std::cmp::Ordering;

impl<A: Alphabet, const LEAST: usize, const MOST: usize> Key for Code<A, LEAST, MOST> {
    ghost cmp = { on text_of text_order };

    ghost total = { Prim.search (comparing, rules) };

    fn compare(&self, other: &Self) -> Ordering {
        Ord::cmp(self, other)
    }
}

impl<A: Alphabet, const LEAST: usize, const MOST: usize> Keyed for Code<A, LEAST, MOST> {
    type Key = Self;

    ghost id = { λ code. code };

    fn key(&self) -> &Self {
        self
    }
}
