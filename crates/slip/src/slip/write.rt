// Writing a slip.
ghost use Rattle.std.specs.Prelude.{◌≡◌, ◌*◌, length, map, Some};
ghost use Rattle.std.specs.Int.{w16, from_be_bytes, to_be_bytes};
ghost use Rattle.std.specs.List.{concat};
ghost use Rattle.texts.specs.Buffers.{answered, filled};
ghost use Rattle.slip.specs.Fields.{fields_of};
ghost use Rattle.slip.specs.Layout.{IsSlip, fields_in, laid_out};

use super::Slip;

// Writes the ends to a buffer of just their length.
fn put_ends(out: &mut [u8], ends: &[[u8; 2]])
    requires { length out.old ≡ 2 * length ends.now }
    ensures { out.new ≡ concat (map (λ end. to_be_bytes w16 (from_be_bytes w16 end)) ends.now) }
{
    out.copy_from_slice(ends.as_flattened());
}

impl Slip<'_> {
    // How long the slip is: its sizes, three bytes for each field, and the text.
    #[tactic(auto, using(crate::proofs::Written::laid_length, crate::proofs::Written::few_tags))]
    fn laid_len(&self) -> usize
        ensures { result ≡ length (laid_out (fields_of self.now)) }
    {
        3 + 3 * self.tags.len() + self.text.len()
    }

    // Writes the slip to a buffer of just its length.
    #[tactic(auto, using(crate::proofs::Written::laid_parts, crate::proofs::Written::laid_length, crate::proofs::Written::few_tags, crate::proofs::Cutting::even))]
    fn put(&self, out: &mut [u8])
        requires { length out.old ≡ length (laid_out (fields_of self.now)) }
        ensures { out.new ≡ laid_out (fields_of self.now) }
    {
        let (count, rest) = out.split_at_mut(1);
        let (size, rest) = rest.split_at_mut(2);
        let (tags, rest) = rest.split_at_mut(self.tags.len());
        let (ends, text) = rest.split_at_mut(2 * self.ends.len());
        count.fill(self.tags.len() as u8);
        size.copy_from_slice(&(self.text.len() as u16).to_be_bytes());
        tags.copy_from_slice(self.tags);
        put_ends(ends, self.ends);
        text.copy_from_slice(self.text);
    }

    // Lays the slip out at the front of `out` and answers its length, or leaves `out` as it is and answers nothing
    // where the slip does not fit.
    #[tactic(auto, using(crate::proofs::Written::slip_laid, crate::proofs::Written::slip_read))]
    pub fn write(&self, out: &mut [u8]) -> Option<usize>
        ensures answer { result ≡ answered (laid_out (fields_of self.now)) out.old }
        ensures buffer { out.new ≡ filled (laid_out (fields_of self.now)) out.old }
        ensures slip { IsSlip (laid_out (fields_of self.now)) (fields_of self.now) }
        ensures reads_back { fields_in (laid_out (fields_of self.now)) ≡ Some (fields_of self.now) }
    {
        let len = self.laid_len();
        if out.len() < len {
            return None;
        }
        self.put(&mut out[..len]);
        Some(len)
    }
}
