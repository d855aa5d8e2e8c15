// Codes compared by their texts: the first byte that differs decides, and a text that another goes on from comes before
// it. The places are compared as they stand: the zeros behind a text sort below every byte of a text. Derives would speak
// of the places and not of the texts.
ghost use Rattle.codes.specs.Codes.{text_of, text_order};
ghost use Rattle.std.specs.Cmp.{partial_order_from_own_ties};
ghost use Rattle.std.specs.Cmp.Rules.{comparing};
ghost use Rattle.std.specs.Ordering.{as_partial_cmp, on};
ghost use Rattle.std.specs.Str.{bytes_eq};
ghost use Rattle.std.proofs.Common.{rules};

use super::Code;
use crate::alphabet::Alphabet;
use std::cmp::Ordering;

impl<A: Alphabet, const LEAST: usize, const MOST: usize> PartialEq for Code<A, LEAST, MOST> {
    ghost eq = { on text_of bytes_eq };

    ghost laws = { Prim.search (comparing, rules) };

    fn eq(&self, other: &Self) -> bool {
        self.bytes == other.bytes
    }
}

impl<A: Alphabet, const LEAST: usize, const MOST: usize> Eq for Code<A, LEAST, MOST> {
    ghost laws = { Prim.search (comparing, rules) };
}

impl<A: Alphabet, const LEAST: usize, const MOST: usize> PartialOrd for Code<A, LEAST, MOST> {
    ghost partial_cmp = { as_partial_cmp (on text_of text_order) };

    ghost laws = { partial_order_from_own_ties (Prim.search (comparing, rules)) (Prim.search (comparing, rules)) };

    fn partial_cmp(&self, other: &Self) -> Option<Ordering> {
        Some(self.cmp(other))
    }
}

impl<A: Alphabet, const LEAST: usize, const MOST: usize> Ord for Code<A, LEAST, MOST> {
    ghost cmp = { on text_of text_order };

    ghost total = { Prim.search (comparing, rules) };

    ghost matches_partial_cmp = { Prim.search (comparing, rules) };

    ghost matches_eq = { Prim.search (comparing, rules) };

    #[tactic(auto, using(crate::proofs::Ordered::codes_in_order))]
    fn cmp(&self, other: &Self) -> Ordering {
        self.bytes.cmp(&other.bytes)
    }
}
