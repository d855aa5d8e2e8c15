// The fifteen rows of the published table, each where its field alone says something else.
use crate::pairs::{RowNumbers, come_to, digits, sheet, with};
use built_sheets::chosen::ChosenSheet;
use built_sheets::kdpw::KdpwSheet;
use sheets::finding::PairState;
use sheets::sheet::Sheet;
use std::alloc::{AllocError, Global};
use std::process::Abort;
use std::test::Fail;

// All details, each with a text that is right.
pub const FULL: &[(u8, &[u8])] = &[
    (9, b"B"),
    (10, b"I"),
    (11, b"PLX000000001"),
    (12, b"I"),
    (13, b"PL0000000001"),
    (14, b"PLN"),
    (15, b"EUR"),
    (16, b"XOFF"),
    (17, b"N"),
    (18, b"12.5"),
    (19, b"U"),
    (20, b"PLN"),
    (21, b"1250"),
    (22, b"2020-08-03T10:00:00Z"),
    (23, b"2020-08-03T12:30:00Z"),
    (24, b"4.25"),
];

// A field counted from 0, its tag, a text, one that matches it, one that differs from it, and what that comes to.
pub const ROWS: &[(u8, u8, &[u8], &[u8], &[u8], PairState)] = &[
    (0, 9, b"B", b"S", b"B", PairState::Err1),
    (
        1,
        11,
        b"PLX000000001",
        b"PLX000000001",
        b"PLX00000000",
        PairState::Err1,
    ),
    (2, 12, b"I", b"I", b"U", PairState::Err1),
    (
        3,
        13,
        b"PL0000000001",
        b"PL0000000001",
        b"pl0000000001",
        PairState::Err1,
    ),
    (4, 14, b"PLN", b"PLN", b"PLZ", PairState::Err1),
    (5, 15, b"EUR", b"EUR", b"USD", PairState::Err2),
    (6, 16, b"XOFF", b"XOFF", b"XXXX", PairState::Err2),
    (7, 17, b"N", b"N", b"Y", PairState::Err2),
    (8, 18, b"12.5", b"12.6", b"12.7", PairState::Err2),
    (9, 19, b"U", b"U", b"P", PairState::Err1),
    (10, 20, b"PLN", b"PLN", b"EUR", PairState::Err1),
    (11, 21, b"1250", b"1250.99", b"1251", PairState::Err1),
    (
        12,
        22,
        b"2020-08-03T10:00:00Z",
        b"2020-08-03T11:00:00Z",
        b"2020-08-04T10:00:00Z",
        PairState::Err2,
    ),
    (
        13,
        23,
        b"2020-08-03T12:30:00Z",
        b"2020-08-03T23:59:59Z",
        b"2020-08-04T12:30:00Z",
        PairState::Err2,
    ),
    (14, 24, b"4.25", b"4.2925", b"4.293", PairState::Err2),
];

// The same table as a client would fill it.
pub const NUMBERS: &[RowNumbers] = &[
    (0, 6, 1),
    (1, 5, 1),
    (2, 5, 1),
    (3, 5, 1),
    (4, 5, 1),
    (5, 5, 2),
    (6, 5, 2),
    (7, 5, 2),
    (8, 1, 2),
    (9, 5, 1),
    (10, 5, 1),
    (11, 2, 1),
    (12, 3, 2),
    (13, 4, 2),
    (14, 1, 2),
];

// Two reports that agree but for what they say at this tag, and the finding at its field.
#[derive(Clone, Copy)]
pub struct Odd {
    pub field: u8,
    pub tag: u8,
    pub first: Option<&'static [u8]>,
    pub second: Option<&'static [u8]>,
    pub digit: u8,
    pub state: PairState,
}

pub fn odd_holds<S: Sheet>(heap: Global, sheet: &S, odd: &Odd) -> Result<bool, AllocError> {
    let seller = with(heap, FULL, 9, Some(b"S"))?;
    let first = with(heap, FULL, odd.tag, odd.first)?;
    let second = with(heap, &seller, odd.tag, odd.second)?;
    let digits = digits(heap, b'0', odd.field, odd.digit)?;
    come_to(heap, sheet, &first, &second, &digits, odd.state)
}

fn rows_hold<S: Sheet>(rt: &impl Abort, heap: Global, sheet: &S) -> Result<(), AllocError> {
    for (field, tag, text, alike, other, state) in ROWS {
        let (field, tag, state) = (*field, *tag, *state);
        let cases = [
            (Some(*text), Some(*alike), b'0', PairState::Mach),
            (Some(*text), Some(*other), b'1', state),
            (Some(*text), None, b'1', state),
            (None, Some(*alike), b'1', state),
            (None, None, b'0', PairState::Mach),
        ];
        for (first, second, digit, state) in cases {
            let odd = Odd {
                field,
                tag,
                first,
                second,
                digit,
                state,
            };
            let holds = odd_holds(heap, sheet, &odd)?;
            assert!(rt; holds, "field {field} digit {digit}");
        }
    }
    Ok(())
}

#[test]
fn published_rows_hold(rt: HostRuntime) -> Result<(), Fail> {
    let heap = rt.alloc();
    rows_hold(&rt, heap, &KdpwSheet)?;
    rows_hold(&rt, heap, &ChosenSheet::Kdpw(KdpwSheet))?;
    Ok(())
}

#[test]
fn the_same_rows_filled_hold(rt: HostRuntime) -> Result<(), Fail> {
    let heap = rt.alloc();
    let Some(filled) = sheet(heap, NUMBERS)? else {
        return Err(Fail::new("refused"));
    };
    rows_hold(&rt, heap, &filled)?;
    rows_hold(&rt, heap, &ChosenSheet::Tabled(filled))?;
    Ok(())
}

// The number of fields and their weights, as every sheet with these rows tells them.
fn weighs<S: Sheet>(sheet: &S) -> bool {
    for place in 0usize..70 {
        let wanted = NUMBERS.get(place).map(|row| row.2).unwrap_or(3);
        if u8::from(sheet.category(place)) != wanted {
            return false;
        }
    }
    sheet.field_count() == 15
}

#[test]
fn fields_weigh(rt: HostRuntime) -> Result<(), Fail> {
    let Some(filled) = sheet(rt.alloc(), NUMBERS)? else {
        return Err(Fail::new("refused"));
    };
    assert!(rt; weighs(&KdpwSheet));
    assert!(rt; weighs(&filled));
    assert!(rt; weighs(&ChosenSheet::Kdpw(KdpwSheet)));
    assert!(rt; weighs(&ChosenSheet::Tabled(filled)));
    Ok(())
}
