// Reads an exchange rate, and gives its amount.
ghost use Rattle.std.specs.Prelude.{◌≡◌};
ghost use Rattle.std.specs.Option.{option_map};
ghost use Rattle.std.specs.Result.{result_ok};
ghost use Rattle.amounts.specs.Decimal.{amount_of};
ghost use Rattle.amounts.specs.Rates.{rate_worth};
ghost use Rattle.amounts.specs.Spelling.{Reads};

use super::ExchangeRate;
use crate::amount::Amount;
use crate::amount::read::{NotAnAmount, read_decimal};

impl ExchangeRate {
    // The rate that a text spells with at most ten digits. `read` and no `TryFrom`, as at every value.
    pub fn read(text: &[u8]) -> Result<ExchangeRate, NotAnAmount>
        ensures value { option_map rate_worth (result_ok result) ≡ amount_of 10 text.now }
        ensures plain { Reads 10 text.now (option_map rate_worth (result_ok result)) }
    {
        let amount = read_decimal::<10>(text)?;
        Ok(ExchangeRate { amount })
    }

    // The rate as an amount, to be compared and written. A method and no `From`: callers name what they take.
    pub fn amount(&self) -> Amount
        ensures { result ≡ self.now.amount }
    {
        self.amount
    }
}
