// Three numbers as text, with a mark between them.
ghost use Rattle.std.specs.Prelude.{◌≡◌, ◌+◌, ◌^◌, ◌<◌, ◌≤◌, length, IfSome, if◌then◌else◌, Some, None};
ghost use Rattle.std.specs.Str.Parse.{digits_value};
ghost use Rattle.std.specs.Str.{all_ascii_digits};
ghost use Rattle.texts.specs.ThreeNumbers.{three_of};

use crate::digits::Digits;

// The number that a text of at most four digits means.
fn read_number(text: &[u8]) -> Option<u16>
    requires { length text.now ≤ 4 }
    ensures value { result ≡ (if all_ascii_digits text.now then Some (digits_value 10 text.now) else None) }
    ensures bound { IfSome result (λ n. n < 10 ^ length text.now) }
{
    let digits = Digits::new(text)?;
    Some(digits.number() as u16)
}

// Three numbers, the first of so many digits, the others of two, with a mark between them.
pub fn read_three(text: &[u8], digits: usize, mark: u8) -> Option<(u16, u8, u8)>
    requires { digits ≤ 4 }
    ensures { result ≡ three_of digits mark text.now }
{
    // by place: the first number's length is a parameter, and a slice pattern fixes lengths
    if text.len() != digits + 6 || text[digits] != mark || text[digits + 3] != mark {
        return None;
    }
    let first = read_number(&text[0..digits])?;
    let second = read_number(&text[digits + 1..digits + 3])?;
    let third = read_number(&text[digits + 4..digits + 6])?;
    Some((first, second as u8, third as u8))
}
