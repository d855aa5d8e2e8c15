// Exchange rate 1, an amount of at most ten digits.
ghost use Rattle.std.specs.Prelude.{◌^◌, ◌<◌, ◌≤◌};

use super::Amount;

pub mod read;

// An amount that keeps the shorter limit too: its shortest text has at most ten digits.
#[derive(Clone, Copy, Debug, PartialEq, Eq)]
pub struct ExchangeRate {
    amount: Amount,
    ghost few_digits: { amount.digits < 10 ^ 10 },
    ghost few_places: { amount.places ≤ 9 },
}
