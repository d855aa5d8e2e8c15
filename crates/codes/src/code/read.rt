// Reads a code from text, and gives its text back.
ghost use Rattle.std.specs.Prelude.{◌≡◌, Some, codes};
ghost use Rattle.std.specs.List.{prefix_len};
ghost use Rattle.std.specs.Option.{option_map};
ghost use Rattle.std.specs.Result.{result_ok};
ghost use Rattle.codes.specs.Codes.{text_of};
ghost use Rattle.codes.specs.Rules.{code_of, ends_well, keeps, non_zero, spelled};

use super::Code;
use crate::alphabet::Alphabet;
use std::error::Error;
use std::fmt;
use std::marker::PhantomData;

// The text breaks the rule of its value.
#[derive(Clone, Copy, Debug, PartialEq, Eq)]
pub struct NotACode;

impl fmt::Display for NotACode {
    ghost output = { λ _. Some (codes "text breaks the rule of its value") };

    fn fmt<W: fmt::Write>(&self, f: &mut fmt::Formatter<W>) -> fmt::Result {
        f.write_str("text breaks the rule of its value")
    }
}

impl Error for NotACode {}

// Whether a text has a first and a last byte that may stand there.
fn ends_well<A: Alphabet>(text: &[u8]) -> bool
    ensures { result ≡ ends_well A.letters text.now }
{
    match text {
        [first, .., last] => A::may_end(*first) && A::may_end(*last),
        [only] => A::may_end(*only),
        [] => false,
    }
}

// Whether every byte of a text is of the alphabet.
fn is_spelled<A: Alphabet>(text: &[u8]) -> bool
    ensures { result ≡ spelled A.letters text.now }
{
    text.iter().all(|b| A::has(*b))
}

impl<A: Alphabet, const LEAST: usize, const MOST: usize> Code<A, LEAST, MOST> {
    // Whether a text keeps the rule.
    pub fn accepts(text: &[u8]) -> bool
        ensures { result ≡ keeps A.letters LEAST MOST text.now }
    {
        let n = text.len();
        LEAST <= n && n <= MOST && is_spelled::<A>(text) && ends_well::<A>(text)
    }

    // The code of this text. `read` and no `TryFrom`, whose ghost member would be this clause again.
    #[tactic(auto, using(crate::proofs::Filled::placed_code, crate::proofs::Filled::placed_rule, crate::proofs::Filled::placed_filled))]
    pub fn read(text: &[u8]) -> Result<Self, NotACode>
        ensures { option_map text_of (result_ok result) ≡ code_of A.letters LEAST MOST text.now }
    {
        if !Self::accepts(text) {
            return Err(NotACode);
        }
        let mut bytes = [0; MOST];
        bytes[..text.len()].copy_from_slice(text);
        Ok(Code {
            bytes,
            alphabet: PhantomData,
        })
    }

    fn len(&self) -> usize
        ensures { result ≡ prefix_len non_zero self.now.bytes }
    {
        self.bytes.iter().take_while(|b| **b != 0).count()
    }

    // The text.
    pub fn bytes(&self) -> &[u8]
        ensures { result.now ≡ text_of self.now }
    {
        &self.bytes[..self.len()]
    }
}
