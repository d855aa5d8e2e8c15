// Texts of one alphabet and a bounded length, held by value.
ghost use Rattle.std.specs.Prelude.{◌≡◌, true, ⊤};
ghost use Rattle.codes.specs.Rules.{keeps, text_in, ZeroFilled};

pub mod kinds;
pub mod laws;
pub mod lei;
pub mod order;
pub mod read;
pub mod venue;

use crate::alphabet::{
    Alphabet, Capitals, CapitalsAndDigits, ProductBytes, TradeIdBytes, UnderlyingBytes,
};
use std::alloc::AllocError;
use std::marker::PhantomData;

// A text of `LEAST` to `MOST` bytes of an alphabet. Zeros fill the places behind it, and no alphabet has the zero,
// so the text needs no length beside it and has one representation.
#[derive_where(Copy, Debug)]
pub struct Code<A: Alphabet, const LEAST: usize, const MOST: usize> {
    bytes: [u8; MOST],
    alphabet: PhantomData<A>,
    ghost rule: { keeps A.letters LEAST MOST (text_in bytes) ≡ true },
    ghost filled: { ZeroFilled MOST bytes },
}

// By hand: a derive clones field by field under a type parameter, and is refused where a ghost field ties the fields.
impl<A: Alphabet, const LEAST: usize, const MOST: usize> Clone for Code<A, LEAST, MOST> {
    ghost is_clone = { λ code copy. copy ≡ code };

    ghost is_infallible = { λ _. ⊤ };

    fn clone(&self) -> Result<Self, AllocError> {
        // built again: a copy from behind a reference is not followed by the prover under a type parameter
        let bytes = self.bytes;
        Ok(Code {
            bytes,
            alphabet: PhantomData,
        })
    }
}

// The unique name that both sides give a trade.
pub type TradeId = Code<TradeIdBytes, 1, 52>;
// A legal entity identifier, by ISO 17442.
pub type Lei = Code<CapitalsAndDigits, 20, 20>;
// A counterparty's own code for a client without an LEI.
pub type ClientCode = Code<CapitalsAndDigits, 1, 20>;
// A country, by ISO 3166.
pub type Country = Code<Capitals, 2, 2>;
// A currency, by ISO 4217.
pub type Currency = Code<Capitals, 3, 3>;
// A trading venue, by ISO 10383.
pub type Venue = Code<CapitalsAndDigits, 4, 4>;
// What names the product.
pub type ProductId = Code<ProductBytes, 1, 64>;
// What names the product's underlying, by the product's rule.
pub type UnderlyingId = Code<UnderlyingBytes, 1, 64>;
