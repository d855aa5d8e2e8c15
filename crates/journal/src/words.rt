// The words of a line.
ghost use Rattle.std.specs.Prelude.{◌≡◌, IfOk, IfErr, map, vec_items, Some, None};
ghost use Rattle.std.specs.Iterator.{YieldsFirstRef, item_count};
ghost use Rattle.journal.specs.Errors.{IfBadEscape};
ghost use Rattle.journal.specs.Words.{decoded_all, words_of};

use crate::escapes::{DecodeError, WordError, decode, escape};
use crate::lines::first_word;
use std::alloc::Global;

// The words of a line as they are written, first to last.
#[derive(Drop)]
pub struct Words<'a>(pub &'a [u8]);

impl<'a> Iterator for Words<'a> {
    type Item = &'a [u8];

    ghost next_gives = { YieldsFirstRef (λ s. words_of s.0.now) };

    ghost remaining = { item_count (λ s. words_of s.0.now) };

    #[tactic(auto, using(crate::proofs::Wording::words_more))]
    fn next(&mut self) -> Option<&'a [u8]> {
        let (word, rest) = first_word(self.0);
        if word.is_empty() {
            return None;
        }
        self.0 = rest;
        Some(word)
    }
}

// What the words of a line stand for.
pub fn read_words(alloc: Global, line: &[u8]) -> Result<Vec<Vec<u8>>, WordError>
    ensures words { IfOk result (λ words. decoded_all (words_of line.now) ≡ Some (map vec_items words.items)) }
    ensures bad { IfErr result (λ e. IfBadEscape e (decoded_all (words_of line.now) ≡ None)) }
{
    let mut words = Vec::new(alloc);
    for word in Words(line) {
        match decode(alloc, word) {
            Ok(bytes) => words.push(bytes)?,
            Err(DecodeError::BadEscape) => return Err(WordError::BadEscape(escape(alloc, word)?)),
            Err(DecodeError::OutOfMemory(error)) => return Err(WordError::OutOfMemory(error)),
        }
    }
    Ok(words)
}
