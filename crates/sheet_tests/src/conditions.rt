// The published table on reports that have just the details under test. All others are absent on both sides and match,
// but for the name of the product: with no ISIN on either side it is not compared.
use crate::pairs::{Pair, all_come_to};
use sheets::finding::PairState::{Err1, Err2, Mach};
use std::test::Fail;

// One report is the buyer's and the other the seller's.
const SIDES: &[Pair] = &[
    (&[], &[], b"020000000000000", Mach),
    (&[(9, b"B")], &[(9, b"S")], b"020000000000000", Mach),
    (&[(9, b"B")], &[(9, b"B")], b"120000000000000", Err1),
    (&[(9, b"S")], &[(9, b"S")], b"120000000000000", Err1),
    (&[(9, b"S")], &[], b"120000000000000", Err1),
];

// Names of products are compared only if one of them is an ISIN.
const PRODUCTS: &[Pair] = &[
    (
        &[(10, b"A"), (11, b"P1")],
        &[(10, b"A"), (11, b"P2")],
        b"020000000000000",
        Mach,
    ),
    (
        &[(10, b"A"), (11, b"P1")],
        &[(10, b"A"), (11, b"P1")],
        b"020000000000000",
        Mach,
    ),
    (
        &[(10, b"A"), (11, b"P1")],
        &[(10, b"A")],
        b"020000000000000",
        Mach,
    ),
    (
        &[(10, b"I"), (11, b"P1")],
        &[(10, b"A"), (11, b"P2")],
        b"010000000000000",
        Err1,
    ),
    (
        &[(10, b"I"), (11, b"P1")],
        &[(10, b"A"), (11, b"P1")],
        b"000000000000000",
        Mach,
    ),
    (
        &[(10, b"I")],
        &[(10, b"A"), (11, b"P1")],
        b"010000000000000",
        Err1,
    ),
    (
        &[(10, b"I"), (11, b"P1")],
        &[(10, b"A")],
        b"010000000000000",
        Err1,
    ),
    (&[(10, b"I")], &[(10, b"A")], b"000000000000000", Mach),
    (
        &[(10, b"I"), (11, b"P1")],
        &[(10, b"I"), (11, b"P2")],
        b"010000000000000",
        Err1,
    ),
    (
        &[(10, b"I"), (11, b"P1")],
        &[(10, b"I"), (11, b"P1")],
        b"000000000000000",
        Mach,
    ),
    (
        &[(10, b"I"), (11, b"P1")],
        &[(11, b"P2")],
        b"010000000000000",
        Err1,
    ),
    (
        &[(11, b"P1")],
        &[(10, b"I"), (11, b"P1")],
        b"000000000000000",
        Mach,
    ),
    (
        &[(10, b"A"), (11, b"P1")],
        &[(11, b"P2")],
        b"020000000000000",
        Mach,
    ),
    (&[(11, b"P1")], &[(11, b"P2")], b"020000000000000", Mach),
    (&[(11, b"P1")], &[], b"020000000000000", Mach),
    // a byte is a byte: cases, blanks and longer names count
    (
        &[(10, b"I"), (11, b"P1")],
        &[(10, b"I"), (11, b"p1")],
        b"010000000000000",
        Err1,
    ),
    (
        &[(10, b"I"), (11, b"P1")],
        &[(10, b"I"), (11, b"P1 ")],
        b"010000000000000",
        Err1,
    ),
];

// Names of underlyings are compared only if neither is an AII or a basket.
const UNDERLYINGS: &[Pair] = &[
    (
        &[(12, b"A"), (13, b"U1")],
        &[(12, b"A"), (13, b"U2")],
        b"020200000000000",
        Mach,
    ),
    (
        &[(12, b"A"), (13, b"U1")],
        &[(12, b"A"), (13, b"U1")],
        b"020200000000000",
        Mach,
    ),
    (
        &[(12, b"A"), (13, b"U1")],
        &[(12, b"A")],
        b"020200000000000",
        Mach,
    ),
    (
        &[(12, b"B"), (13, b"U1")],
        &[(12, b"B"), (13, b"U2")],
        b"020200000000000",
        Mach,
    ),
    (
        &[(12, b"A"), (13, b"U1")],
        &[(12, b"B"), (13, b"U2")],
        b"021200000000000",
        Err1,
    ),
    (
        &[(12, b"I"), (13, b"U1")],
        &[(12, b"A"), (13, b"U2")],
        b"021200000000000",
        Err1,
    ),
    (
        &[(12, b"X"), (13, b"U1")],
        &[(12, b"B"), (13, b"U2")],
        b"021200000000000",
        Err1,
    ),
    (
        &[(13, b"U1")],
        &[(12, b"A"), (13, b"U2")],
        b"021200000000000",
        Err1,
    ),
    (
        &[(12, b"B"), (13, b"U1")],
        &[(13, b"U1")],
        b"021200000000000",
        Err1,
    ),
    (
        &[(12, b"I"), (13, b"U1")],
        &[(12, b"I"), (13, b"U2")],
        b"020100000000000",
        Err1,
    ),
    (
        &[(12, b"U"), (13, b"U1")],
        &[(12, b"U"), (13, b"U2")],
        b"020100000000000",
        Err1,
    ),
    (
        &[(12, b"X"), (13, b"U1")],
        &[(12, b"X"), (13, b"U2")],
        b"020100000000000",
        Err1,
    ),
    (
        &[(12, b"X"), (13, b"U1")],
        &[(12, b"X"), (13, b"U1")],
        b"020000000000000",
        Mach,
    ),
    (
        &[(12, b"I"), (13, b"U1")],
        &[(12, b"U"), (13, b"U1")],
        b"021000000000000",
        Err1,
    ),
    (
        &[(12, b"I"), (13, b"U1")],
        &[(13, b"U2")],
        b"021100000000000",
        Err1,
    ),
    (&[(13, b"U1")], &[(13, b"U2")], b"020100000000000", Err1),
    (&[(13, b"U1")], &[(13, b"U1")], b"020000000000000", Mach),
    (&[(13, b"U1")], &[], b"020100000000000", Err1),
];

// One of the first category outweighs any of the second.
const STATES: &[Pair] = &[
    (
        &[(15, b"EUR"), (17, b"Y"), (18, b"1")],
        &[(15, b"USD"), (17, b"N"), (18, b"2")],
        b"020001011000000",
        Err2,
    ),
    (
        &[(9, b"B"), (15, b"EUR")],
        &[(9, b"B"), (15, b"USD")],
        b"120001000000000",
        Err1,
    ),
    (
        &[(15, b"EUR"), (21, b"1")],
        &[(15, b"USD"), (21, b"2")],
        b"020001000001000",
        Err1,
    ),
    (
        &[(20, b"PLN"), (24, b"1")],
        &[(20, b"EUR"), (24, b"2")],
        b"020000000010001",
        Err1,
    ),
    (
        &[
            (9, b"S"),
            (10, b"I"),
            (11, b"P1"),
            (12, b"I"),
            (13, b"U1"),
            (14, b"PLN"),
            (15, b"PLN"),
            (16, b"XWAR"),
            (17, b"Y"),
            (18, b"1"),
            (19, b"Y"),
            (20, b"PLN"),
            (21, b"1"),
            (22, b"2020-08-03T10:00:00Z"),
            (23, b"2020-08-03T10:00:00Z"),
            (24, b"1"),
        ],
        &[
            (9, b"S"),
            (10, b"I"),
            (11, b"P2"),
            (12, b"X"),
            (13, b"U2"),
            (14, b"EUR"),
            (15, b"EUR"),
            (16, b"XOFF"),
            (17, b"N"),
            (18, b"2"),
            (19, b"P"),
            (20, b"EUR"),
            (21, b"2"),
            (22, b"2020-08-04T10:00:00Z"),
            (23, b"2020-08-04T10:00:00Z"),
            (24, b"2"),
        ],
        b"111111111111111",
        Err1,
    ),
];

#[test]
fn sides_are_opposite(rt: HostRuntime) -> Result<(), Fail> {
    all_come_to(&rt, rt.alloc(), SIDES)?;
    Ok(())
}

#[test]
fn products_are_named_by_isin(rt: HostRuntime) -> Result<(), Fail> {
    all_come_to(&rt, rt.alloc(), PRODUCTS)?;
    Ok(())
}

#[test]
fn underlyings_are_named_by_none_of_two(rt: HostRuntime) -> Result<(), Fail> {
    all_come_to(&rt, rt.alloc(), UNDERLYINGS)?;
    Ok(())
}

#[test]
fn first_category_outweighs(rt: HostRuntime) -> Result<(), Fail> {
    all_come_to(&rt, rt.alloc(), STATES)?;
    Ok(())
}
