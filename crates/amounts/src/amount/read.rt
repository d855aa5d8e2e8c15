// Reads an amount from text.
ghost use Rattle.std.specs.Prelude.{◌≡◌, ◌≢◌, ◌+◌, ◌-◌, ◌*◌, ◌%◌, ◌^◌, ◌<◌, ◌≤◌, ℕ, List, ◌++◌, length, replicate, slice_index, Some, codes, IfOk, MatchResult};
ghost use Rattle.std.specs.Option.{option_map};
ghost use Rattle.std.specs.Str.Parse.{digits_value};
ghost use Rattle.std.specs.Result.{result_ok};
ghost use Rattle.amounts.specs.Amounts.{worth};
ghost use Rattle.amounts.specs.Decimal.{amount_of, magnitude_of, minus, unsigned};
ghost use Rattle.amounts.specs.Spelling.{Reads, dot_text};
ghost use Rattle.amounts.specs.Units.{signed};

use super::Amount;
use super::parts::power_of_ten;
use std::error::Error;
use std::fmt;
use texts::digits::Digits;

// The text spells no amount.
#[derive(Clone, Copy, Debug, PartialEq, Eq)]
pub struct NotAnAmount;

impl fmt::Display for NotAnAmount {
    ghost output = { λ _. Some (codes "not an amount") };

    fn fmt<W: fmt::Write>(&self, f: &mut fmt::Formatter<W>) -> fmt::Result {
        f.write_str("not an amount")
    }
}

impl Error for NotAnAmount {}

// Whether a '-' stands in front, and what follows it: both are there in any text, so this is no Option.
#[tactic(auto, using(std::proofs::lemmas::List::take_rest, std::proofs::lemmas::List::get_or_past))]
fn split_sign(text: &[u8]) -> (bool, &[u8])
    ensures sign { result.0 ≡ minus text.now }
    ensures rest { result.1.now ≡ unsigned text.now }
{
    match text {
        [b'-', rest @ ..] => (true, rest),
        _ => (false, text),
    }
}

// What stands behind the dot: nothing where nothing follows the whole part.
fn behind_dot(tail: &[u8]) -> Result<&[u8], NotAnAmount>
    ensures { MatchResult result (λ ds. tail.now ≡ dot_text ds.now) (λ _. (ds : List ℕ) → tail.now ≡ dot_text ds → ⊥) }
{
    match tail {
        [] => Ok(tail),
        [b'.', digits @ ..] if !digits.is_empty() => Ok(digits),
        _ => Err(NotAnAmount),
    }
}

// The digits of a fraction without the zeros at its end.
fn without_zeros(digits: &[u8]) -> &[u8]
    ensures zeros { digits.now ≡ result.now ++ replicate (length digits.now - length result.now) 48 }
    ensures last { 0 < length result.now → slice_index result.now (length result.now - 1) ≢ 48 }
{
    let mut kept = digits;
    while let [rest @ .., b'0'] = kept {
        kept = rest;
    }
    kept
}

// The digits before and behind the dot as one number.
#[tactic(auto, using(crate::proofs::Parts::joined_below))]
fn joined(whole: &Digits, fraction: &Digits) -> u128
    requires { length whole.now.bytes.now + length fraction.now.bytes.now ≤ 20 }
    ensures value { result ≡ digits_value 10 whole.now.bytes.now * 10 ^ length fraction.now.bytes.now + digits_value 10 fraction.now.bytes.now }
    ensures bound { result < 10 ^ (length whole.now.bytes.now + length fraction.now.bytes.now) }
{
    whole.number() * power_of_ten(fraction.bytes().len() as u8) + fraction.number()
}

// An unsigned decimal of at most MOST digits, worth `digits` / 10^`places`, with no zero at the end of its places.
#[derive(Clone, Copy)]
struct Magnitude<const MOST: usize> {
    digits: u128,
    places: u8,
    ghost limit: { MOST ≤ 20 },
    ghost few_digits: { digits < 10 ^ MOST },
    ghost few_places: { places < MOST },
    ghost no_zero_at_end: { 0 < places → 0 < digits % 10 },
}

impl<const MOST: usize> Magnitude<MOST> {
    // The decimal that a text spells.
    #[tactic(auto, using(crate::proofs::Reading::no_dot))]
    fn read(body: &[u8]) -> Result<Self, NotAnAmount>
        requires { MOST ≤ 20 }
        ensures { option_map (λ u. u.digits * 10 ^ (19 - u.places)) (result_ok result) ≡ magnitude_of MOST body.now }
    {
        let (whole, tail) = Digits::leading(body);
        let fraction = behind_dot(tail)?;
        let count = whole.bytes().len();
        if count == 0 || count + fraction.len() > MOST {
            return Err(NotAnAmount);
        }
        // the zeros that fall away are digits
        let kept = Digits::new(without_zeros(fraction)).ok_or(NotAnAmount)?;
        Ok(Magnitude {
            digits: joined(&whole, &kept),
            places: kept.bytes().len() as u8,
        })
    }

    // The amount with this sign.
    #[tactic(auto, using(texts::proofs::Powers::ten_le))]
    fn signed(&self, negative: bool) -> Amount
        ensures value { worth result ≡ signed negative (self.now.digits * 10 ^ (19 - self.now.places)) }
        ensures few_digits { result.digits < 10 ^ MOST }
        ensures few_places { result.places < MOST }
    {
        Amount {
            negative: negative && self.digits > 0,
            digits: self.digits,
            places: self.places,
        }
    }
}

// The amount that a text spells with at most MOST digits, zeros counted.
pub(super) fn read_decimal<const MOST: usize>(text: &[u8]) -> Result<Amount, NotAnAmount>
    requires { MOST ≤ 20 }
    ensures value { option_map worth (result_ok result) ≡ amount_of MOST text.now }
    ensures plain { Reads MOST text.now (option_map worth (result_ok result)) }
    ensures rule { IfOk result (λ a. (a.digits < 10 ^ MOST) × (a.places < MOST)) }
{
    let (negative, body) = split_sign(text);
    let magnitude = Magnitude::<MOST>::read(body)?;
    Ok(magnitude.signed(negative))
}

impl Amount {
    // The amount that a text spells with at most twenty digits. `read` and no `TryFrom`: the two clauses would be one
    // ghost member.
    pub fn read(text: &[u8]) -> Result<Amount, NotAnAmount>
        ensures value { option_map worth (result_ok result) ≡ amount_of 20 text.now }
        ensures plain { Reads 20 text.now (option_map worth (result_ok result)) }
    {
        read_decimal::<20>(text)
    }
}
