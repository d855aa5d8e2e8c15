// The one-letter fields among the details of a trade or position.
ghost use Rattle.fields.specs.Fields.{compression_letter, compression_letters, price_notation_letter, price_notation_letters, product_id_kind_letter, product_id_kind_letters, side_letter, side_letters, underlying_kind_letter, underlying_kind_letters};
ghost use Rattle.std.proofs.Common.{rules};

use crate::letter::Cases;

// The side of the reporting counterparty.
#[derive(Clone, Copy, PartialEq, Eq)]
pub enum Side {
    Buyer = b'B' as isize,
    Seller = b'S' as isize,
}

impl Cases for Side {
    ghost letters = { side_letters };

    ghost told = { side_letter };

    ghost listed = { Prim.search rules };

    ghost apart = { Prim.search rules };

    fn cases() -> &'static [Side] {
        &[Side::Buyer, Side::Seller]
    }

    fn case_letter(&self) -> u8 {
        *self as u8
    }
}

// How the product is identified.
#[derive(Clone, Copy, PartialEq, Eq)]
pub enum ProductIdKind {
    // A securities identification number, by ISO 6166.
    Isin = b'I' as isize,
    // An alternative instrument identifier.
    Aii = b'A' as isize,
}

impl Cases for ProductIdKind {
    ghost letters = { product_id_kind_letters };

    ghost told = { product_id_kind_letter };

    ghost listed = { Prim.search rules };

    ghost apart = { Prim.search rules };

    fn cases() -> &'static [ProductIdKind] {
        &[ProductIdKind::Isin, ProductIdKind::Aii]
    }

    fn case_letter(&self) -> u8 {
        *self as u8
    }
}

// How the underlying is identified.
#[derive(Clone, Copy, PartialEq, Eq)]
pub enum UnderlyingKind {
    // A securities identification number, by ISO 6166.
    Isin = b'I' as isize,
    // An alternative instrument identifier.
    Aii = b'A' as isize,
    // A unique product identifier.
    Upi = b'U' as isize,
    Basket = b'B' as isize,
    Index = b'X' as isize,
}

impl Cases for UnderlyingKind {
    ghost letters = { underlying_kind_letters };

    ghost told = { underlying_kind_letter };

    ghost listed = { Prim.search rules };

    ghost apart = { Prim.search rules };

    fn cases() -> &'static [UnderlyingKind] {
        &[
            UnderlyingKind::Isin,
            UnderlyingKind::Aii,
            UnderlyingKind::Upi,
            UnderlyingKind::Basket,
            UnderlyingKind::Index,
        ]
    }

    fn case_letter(&self) -> u8 {
        *self as u8
    }
}

// Whether the contract results from a compression.
#[derive(Clone, Copy, PartialEq, Eq)]
pub enum Compression {
    Compressed = b'Y' as isize,
    Uncompressed = b'N' as isize,
}

impl Cases for Compression {
    ghost letters = { compression_letters };

    ghost told = { compression_letter };

    ghost listed = { Prim.search rules };

    ghost apart = { Prim.search rules };

    fn cases() -> &'static [Compression] {
        &[Compression::Compressed, Compression::Uncompressed]
    }

    fn case_letter(&self) -> u8 {
        *self as u8
    }
}

// How the price is stated.
#[derive(Clone, Copy, PartialEq, Eq)]
pub enum PriceNotation {
    Units = b'U' as isize,
    Percentage = b'P' as isize,
    Yield = b'Y' as isize,
}

impl Cases for PriceNotation {
    ghost letters = { price_notation_letters };

    ghost told = { price_notation_letter };

    ghost listed = { Prim.search rules };

    ghost apart = { Prim.search rules };

    fn cases() -> &'static [PriceNotation] {
        &[
            PriceNotation::Units,
            PriceNotation::Percentage,
            PriceNotation::Yield,
        ]
    }

    fn case_letter(&self) -> u8 {
        *self as u8
    }
}
