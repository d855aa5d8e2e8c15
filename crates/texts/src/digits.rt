// Decimal digits in text: how long one is, which number it means, and how a number is written.
ghost use Rattle.std.specs.Prelude.{◌≡◌, ℕ, ◌%◌, ◌^◌, ◌<◌, ◌≤◌, length, take, drop, if◌then◌else◌, Some, None};
ghost use Rattle.std.specs.Option.{option_map};
ghost use Rattle.std.specs.Str.{all_ascii_digits};
ghost use Rattle.std.specs.Str.Parse.{digits_value};
ghost use Rattle.std.specs.Char.{is_ascii_digit};
ghost use Rattle.std.specs.List.{list_all, prefix_len};
ghost use Rattle.std.proofs.Props.{props};
ghost use Rattle.texts.specs.Numerals.{AllDigits, padded, width};

fn is_all_digits(text: &[u8]) -> bool
    ensures { result ≡ list_all is_ascii_digit text.now }
{
    text.iter().all(|b| b.is_ascii_digit())
}

// A text of decimal digits alone. It may be empty.
#[derive(Clone, Copy)]
pub struct Digits<'t> {
    bytes: &'t [u8],
    ghost all: { AllDigits bytes.now } by { Prim.hlevel props },
}

impl<'t> Digits<'t> {
    // The text as digits, if it has nothing else.
    pub fn new(text: &'t [u8]) -> Option<Self>
        ensures { option_map (λ d. d.bytes.now) result ≡ (if all_ascii_digits text.now then Some text.now else None) }
    {
        if !is_all_digits(text) {
            return None;
        }
        Some(Digits { bytes: text })
    }

    // The digits at the front of a text, and what follows them.
    pub fn leading(text: &'t [u8]) -> (Self, &'t [u8])
        ensures digits { result.0.bytes.now ≡ take (prefix_len is_ascii_digit text.now) text.now }
        ensures rest { result.1.now ≡ drop (prefix_len is_ascii_digit text.now) text.now }
    {
        let (bytes, rest) = text.split_at(leading_digits(text));
        (Digits { bytes }, rest)
    }

    // The digits as text.
    pub fn bytes(&self) -> &'t [u8]
        ensures text { result.now ≡ self.now.bytes.now }
        ensures all { AllDigits result.now }
    {
        self.bytes
    }

    // The number that at most 20 digits mean.
    pub fn number(&self) -> u128
        requires { length self.now.bytes.now ≤ 20 }
        ensures value { result ≡ digits_value 10 self.now.bytes.now }
        ensures bound { result < 10 ^ length self.now.bytes.now }
    {
        let mut n: u128 = 0;
        for d in self.bytes {
            n = n * 10 + u128::from(*d - b'0');
        }
        n
    }
}

// How many digits stand at the front of a text.
pub fn leading_digits(text: &[u8]) -> usize
    ensures value { result ≡ prefix_len is_ascii_digit text.now }
    ensures within { result ≤ length text.now }
{
    text.iter().take_while(|b| b.is_ascii_digit()).count()
}

// How many digits a number has; zero has one.
#[tactic(auto, using(crate::proofs::Padded::width_told, crate::proofs::Padded::below_told, crate::proofs::Padded::least_told))]
pub fn digit_count(n: u128) -> usize
    ensures value { result ≡ width n }
    ensures enough { n < 10 ^ result }
    ensures least { (k : ℕ) → 0 < k → n < 10 ^ k → result ≤ k }
{
    match n.checked_ilog10() {
        Some(power) => power as usize + 1,
        None => 1,
    }
}

// Writes the last digits of a number, as many as `out` has places, with zeros in front where there are fewer.
pub fn write_digits(out: &mut [u8], n: u128)
    ensures text { out.new ≡ padded (length out.old) n }
    ensures all { AllDigits out.new }
    ensures value { digits_value 10 out.new ≡ n % 10 ^ length out.old }
{
    let mut left = n;
    // by place: of a slice behind a reversed `iter_mut` a proof knows no element
    for at in (0..out.len()).rev() {
        out[at] = b'0' + (left % 10) as u8;
        left /= 10;
    }
}
