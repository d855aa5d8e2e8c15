// The texts of the details, borrowed from the record that holds them.
ghost use Rattle.std.specs.Prelude.{◌≡◌};
ghost use Rattle.std.specs.Option.{option_copied, option_map};
ghost use Rattle.codes.specs.Codes.{text_of};

use super::Details;
use codes::alphabet::Alphabet;
use codes::code::Code;

// The bytes of a code that may be left out.
fn bytes<A: Alphabet, const LEAST: usize, const MOST: usize>(
    code: &Option<Code<A, LEAST, MOST>>,
) -> Option<&[u8]>
    ensures { option_copied result ≡ option_map text_of code.now }
{
    let Some(code) = code else {
        return None;
    };
    Some(code.bytes())
}

impl Details {
    pub fn product_id_text(&self) -> Option<&[u8]>
        ensures { option_copied result ≡ option_map text_of self.now.product_id }
    {
        bytes(&self.product_id)
    }

    pub fn underlying_id_text(&self) -> Option<&[u8]>
        ensures { option_copied result ≡ option_map text_of self.now.underlying_id }
    {
        bytes(&self.underlying_id)
    }

    pub fn notional_currency_1_text(&self) -> Option<&[u8]>
        ensures { option_copied result ≡ option_map text_of self.now.notional_currency_1 }
    {
        bytes(&self.notional_currency_1)
    }

    pub fn notional_currency_2_text(&self) -> Option<&[u8]>
        ensures { option_copied result ≡ option_map text_of self.now.notional_currency_2 }
    {
        bytes(&self.notional_currency_2)
    }

    pub fn venue_text(&self) -> Option<&[u8]>
        ensures { option_copied result ≡ option_map text_of self.now.venue }
    {
        bytes(&self.venue)
    }

    pub fn price_currency_text(&self) -> Option<&[u8]>
        ensures { option_copied result ≡ option_map text_of self.now.price_currency }
    {
        bytes(&self.price_currency)
    }
}
