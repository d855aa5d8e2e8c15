// A decimal amount, kept exactly.
ghost use Rattle.std.specs.Prelude.{◌≡◌, ◌%◌, ◌^◌, ◌<◌, ◌≤◌, true};

pub mod checks;
pub mod display;
pub mod laws;
mod parts;
pub mod rate;
pub mod read;
pub mod write;

// An amount of at most 20 digits, worth `digits` / 10^`places`, below zero where `negative`.
// Each value has one representation: no zero ends the places behind the dot, and zero is never negative.
#[derive(Clone, Copy, Debug, PartialEq, Eq)]
pub struct Amount {
    negative: bool,
    digits: u128,
    places: u8,
    ghost few_digits: { digits < 10 ^ 20 },
    ghost few_places: { places ≤ 19 },
    ghost no_zero_at_end: { (0 < places → 0 < digits % 10) },
    ghost no_minus_zero: { (negative ≡ true → 0 < digits) },
}
