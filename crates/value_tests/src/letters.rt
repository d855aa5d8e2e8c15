// The letters of the one-letter fields.
use fields::field::detail::{Compression, PriceNotation, ProductIdKind, Side, UnderlyingKind};
use fields::field::report::{Action, Level, PartyKind};
use fields::letter::{Cases, Letter, read_letter};

const PARTY_KINDS: &[(PartyKind, u8)] = &[(PartyKind::Lei, b'L'), (PartyKind::Client, b'C')];

const ACTIONS: &[(Action, u8)] = &[
    (Action::New, b'N'),
    (Action::PositionComponent, b'P'),
    (Action::Modify, b'M'),
    (Action::Correction, b'R'),
    (Action::ValuationUpdate, b'V'),
    (Action::EarlyTermination, b'C'),
    (Action::Compression, b'Z'),
    (Action::Error, b'E'),
];

const LEVELS: &[(Level, u8)] = &[(Level::Trade, b'T'), (Level::Position, b'P')];

const SIDES: &[(Side, u8)] = &[(Side::Buyer, b'B'), (Side::Seller, b'S')];

const PRODUCTS: &[(ProductIdKind, u8)] = &[(ProductIdKind::Isin, b'I'), (ProductIdKind::Aii, b'A')];

const UNDERLYINGS: &[(UnderlyingKind, u8)] = &[
    (UnderlyingKind::Isin, b'I'),
    (UnderlyingKind::Aii, b'A'),
    (UnderlyingKind::Upi, b'U'),
    (UnderlyingKind::Basket, b'B'),
    (UnderlyingKind::Index, b'X'),
];

const COMPRESSIONS: &[(Compression, u8)] = &[
    (Compression::Compressed, b'Y'),
    (Compression::Uncompressed, b'N'),
];

const NOTATIONS: &[(PriceNotation, u8)] = &[
    (PriceNotation::Units, b'U'),
    (PriceNotation::Percentage, b'P'),
    (PriceNotation::Yield, b'Y'),
];

// Whether a case has this letter and is read from it, and neither from two of them nor from the small letter.
fn has_letter<L: Cases + PartialEq>(case: L, letter: u8) -> bool {
    case.letter() == letter
        && L::of_letter(letter) == Some(case)
        && read_letter(&[letter]) == Ok(case)
        && read_letter::<L>(&[letter, letter]).is_err()
        && read_letter::<L>(&[letter.to_ascii_lowercase()]).is_err()
}

// Whether these are all the cases of the field, with their letters. W is a letter of no field.
fn has_letters<L: Cases + PartialEq>(cases: &[(L, u8)]) -> bool {
    L::cases().len() == cases.len()
        && cases
            .iter()
            .all(|(case, letter)| has_letter(*case, *letter))
        && read_letter::<L>(b"W").is_err()
        && read_letter::<L>(b"").is_err()
}

#[test]
fn fields_have_their_letters(rt: HostRuntime) {
    assert!(rt; has_letters(PARTY_KINDS));
    assert!(rt; has_letters(ACTIONS));
    assert!(rt; has_letters(LEVELS));
    assert!(rt; has_letters(SIDES));
    assert!(rt; has_letters(PRODUCTS));
    assert!(rt; has_letters(UNDERLYINGS));
    assert!(rt; has_letters(COMPRESSIONS));
    assert!(rt; has_letters(NOTATIONS));
}
