// Prints an amount in its shortest form.
ghost use Rattle.std.specs.Prelude.{Some};
ghost use Rattle.amounts.specs.Shortest.{shortest};

use super::Amount;
use super::write::LONGEST;
use std::fmt;
use texts::ascii::as_str;

impl fmt::Display for Amount {
    ghost output = { λ a. Some (shortest a) };

    #[tactic(auto, using(crate::proofs::Shortest::shortest_ascii))]
    fn fmt<W: fmt::Write>(&self, f: &mut fmt::Formatter<W>) -> fmt::Result {
        // no heap: the text is laid out in a buffer that the longest one fits
        let mut buffer = [0u8; LONGEST];
        let text = &mut buffer[..self.text_len()];
        self.put_text(text);
        f.write_str(as_str(text))
    }
}
