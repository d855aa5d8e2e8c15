// Numbers of rows and of places.
ghost use Rattle.std.specs.Prelude.{◌≡◌};
ghost use Rattle.desk.specs.Numbers.{number_spelled};

use texts::ascii::as_str;
use texts::digits::Digits;

// The number that decimal digits make, if it fits; any number of zeros may stand in front.
#[tactic(auto, using(crate::proofs::Parsed::number_parsed))]
pub fn read_number(word: &[u8]) -> Option<usize>
    ensures { result ≡ number_spelled word.now }
{
    let digits = Digits::new(word)?;
    as_str(digits.bytes()).parse().ok()
}
