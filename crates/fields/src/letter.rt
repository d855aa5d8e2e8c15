// Fields of one letter, read and given back by one rule.
ghost use Rattle.std.specs.Prelude.{◌≡◌, ℕ, true, List, map};
ghost use Rattle.std.specs.Option.{option_map};
ghost use Rattle.std.specs.Result.{result_ok};
ghost use Rattle.codes.specs.Alphabets.{one_of};
ghost use Rattle.fields.specs.Letters.{letter_among, letter_in};

use codes::code::read::NotACode;

// A field whose cases are told by a letter.
pub trait Letter: Sized {
    // The letters of the field.
    ghost letters: { List ℕ };

    // The letter of each case.
    ghost told: { Self → ℕ };

    // The case of a letter.
    fn of_letter(byte: u8) -> Option<Self>
        ensures { option_map told result ≡ letter_among letters byte };

    // The letter of this case.
    fn letter(&self) -> u8
        ensures { result ≡ told self.now };

    ghost listed: { (x : Self) → one_of letters (told x) ≡ true };

    ghost apart: { (x y : Self) → told x ≡ told y → x ≡ y };
}

// A field that lists its cases, and so is told by a letter: the case of one is found among them.
pub trait Cases: Copy + 'static {
    // The letters of the field.
    ghost letters: { List ℕ };

    // The letter of each case.
    ghost told: { Self → ℕ };

    // The cases, in the order of the letters.
    fn cases() -> &'static [Self]
        ensures { map told result.now ≡ letters };

    // The letter of this case. Each field casts its own enum: a type parameter has no cast to a number.
    fn case_letter(&self) -> u8
        ensures { result ≡ told self.now };

    ghost listed: { (x : Self) → one_of letters (told x) ≡ true };

    ghost apart: { (x y : Self) → told x ≡ told y → x ≡ y };
}

impl<C: Cases> Letter for C {
    ghost letters = { C.Cases.letters };

    ghost told = { C.Cases.told };

    ghost listed = { C.Cases.listed };

    ghost apart = { C.Cases.apart };

    fn of_letter(byte: u8) -> Option<C> {
        C::cases()
            .iter()
            .find(|case| case.case_letter() == byte)
            .copied()
    }

    fn letter(&self) -> u8 {
        self.case_letter()
    }
}

// The case that a text of one letter tells.
pub fn read_letter<L: Letter>(text: &[u8]) -> Result<L, NotACode>
    ensures { option_map L.Letter.told (result_ok result) ≡ letter_in L.Letter.letters text.now }
{
    let [byte] = text else {
        return Err(NotACode);
    };
    L::of_letter(*byte).ok_or(NotACode)
}
