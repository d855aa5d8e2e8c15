// Writes an amount in its shortest form.
ghost use Rattle.std.specs.Prelude.{◌≡◌, ℕ, ◌+◌, ◌≤◌, List, length, Some};
ghost use Rattle.texts.specs.Buffers.{answered, filled};
ghost use Rattle.texts.specs.Numerals.{padded};
ghost use Rattle.amounts.specs.Amounts.{worth};
ghost use Rattle.amounts.specs.Decimal.{amount_of};
ghost use Rattle.amounts.specs.Shortest.{shortest};
ghost use Rattle.amounts.specs.Spelling.{dot_text};

use super::Amount;
use texts::digits::{digit_count, write_digits};

// The longest text of an amount: a minus, twenty digits and a dot.
pub const LONGEST: usize = 22;

// How long the text of a dot and the places behind it is; both fall away where there are no places.
#[tactic(auto, using(crate::proofs::Shortest::dot_length))]
fn fraction_len(places: u8) -> usize
    ensures value { (n : ℕ) → result ≡ length (dot_text (padded places n)) }
    ensures bound { result ≤ places + 1 }
{
    if places == 0 {
        0
    } else {
        usize::from(places) + 1
    }
}

// Writes a dot and the last digits of a number to a buffer of just their length.
#[tactic(auto, using(crate::proofs::Shortest::dot_fills))]
fn put_fraction(out: &mut [u8], places: u8, digits: u128)
    requires { length out.old ≡ length (dot_text (padded places digits)) }
    ensures { out.new ≡ dot_text (padded places digits) }
{
    if let Some((dot, rest)) = out.split_first_mut() {
        *dot = b'.';
        write_digits(rest, digits);
    }
}

impl Amount {
    // How long the shortest text is.
    #[tactic(auto, using(crate::proofs::Shortest::length_told))]
    pub(super) fn text_len(&self) -> usize
        ensures value { result ≡ length (shortest self.now) }
        ensures bound { result ≤ 22 }
    {
        usize::from(self.negative) + digit_count(self.whole_part()) + fraction_len(self.places)
    }

    // Writes the shortest text to a buffer of just its length.
    #[tactic(auto, using(crate::proofs::Shortest::length_told, crate::proofs::Shortest::parts_shortest, crate::proofs::Shortest::sign_fills))]
    pub(super) fn put_text(&self, out: &mut [u8])
        requires { length out.old ≡ length (shortest self.now) }
        ensures { out.new ≡ shortest self.now }
    {
        let whole = self.whole_part();
        let (sign, unsigned) = out.split_at_mut(usize::from(self.negative));
        let (front, behind) = unsigned.split_at_mut(digit_count(whole));
        sign.fill(b'-');
        write_digits(front, whole);
        put_fraction(behind, self.places, self.digits);
    }

    // Writes the shortest text to the front of `out` and answers its length, or leaves `out` as it is
    // and answers nothing where the text does not fit. The caller lends the room: there is no heap here.
    #[tactic(auto, using(crate::proofs::Shortest::reads_back_20, crate::proofs::Shortest::none_shorter))]
    pub fn write(&self, out: &mut [u8]) -> Option<usize>
        ensures answer { result ≡ answered (shortest self.now) out.old }
        ensures buffer { out.new ≡ filled (shortest self.now) out.old }
        ensures room { length (shortest self.now) ≤ 22 }
        ensures reads_back { amount_of 20 (shortest self.now) ≡ Some (worth self.now) }
        ensures least { (text : List ℕ) → amount_of 20 text ≡ Some (worth self.now) → length (shortest self.now) ≤ length text }
    {
        let len = self.text_len();
        if out.len() < len {
            return None;
        }
        self.put_text(&mut out[..len]);
        Some(len)
    }
}
