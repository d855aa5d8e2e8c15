// Bytes that a journal spells in hexadecimal digits.
ghost use Rattle.std.specs.Prelude.{◌≡◌, false, IfOk, IfErr, Ok};
ghost use Rattle.std.specs.Result.{is_ok};
ghost use Rattle.hex.specs.Hex.{decode_of};
ghost use Rattle.verbs.specs.Faults.{IfNoCall};

use crate::fault::Fault;
use hex::FromHexError;
use journal::escapes::escape;
use std::alloc::{AllocError, Global};

// The bytes that a word spells, two digits for each.
pub fn read_hex(alloc: Global, word: &[u8]) -> Result<Vec<u8>, Fault>
    ensures bytes { IfOk result (λ bytes. decode_of word.now ≡ Ok bytes.items) }
    ensures fault { IfErr result (λ f. IfNoCall f (is_ok (decode_of word.now) ≡ false)) }
{
    match hex::decode(alloc, word) {
        Ok(bytes) => Ok(bytes),
        Err(FromHexError::OutOfMemory) => Err(Fault::OutOfMemory(AllocError)),
        Err(_) => Err(Fault::BadHex(escape(alloc, word)?)),
    }
}
