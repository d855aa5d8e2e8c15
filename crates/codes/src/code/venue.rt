// Venues that are no exchange.
ghost use Rattle.std.specs.Prelude.{◌≡◌};
ghost use Rattle.codes.specs.Codes.{off_exchange, text_of};

use super::Venue;

impl Venue {
    // Whether the trade was made off an exchange: XXXX for one over the counter, XOFF for a listed product.
    pub fn is_off_exchange(&self) -> bool
        ensures { result ≡ off_exchange (text_of self.now) }
    {
        let text = self.bytes();
        text == b"XXXX".as_slice() || text == b"XOFF".as_slice()
    }
}
