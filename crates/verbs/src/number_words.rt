// Numbers that a journal spells in decimal digits.
ghost use Rattle.std.specs.Prelude.{◌≡◌, IfOk, IfErr, Some, None};
ghost use Rattle.desk.specs.Numbers.{number_spelled};
ghost use Rattle.verbs.specs.Faults.{IfNoCall};

use crate::fault::Fault;
use desk::number::read_number;
use journal::escapes::escape;
use std::alloc::Global;

// The number that a word spells.
pub fn read_count(alloc: Global, word: &[u8]) -> Result<usize, Fault>
    ensures number { IfOk result (λ n. number_spelled word.now ≡ Some n) }
    ensures fault { IfErr result (λ f. IfNoCall f (number_spelled word.now ≡ None)) }
{
    match read_number(word) {
        Some(number) => Ok(number),
        None => Err(Fault::BadNumber(escape(alloc, word)?)),
    }
}
