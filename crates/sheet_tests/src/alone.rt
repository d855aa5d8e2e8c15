// Each field compared alone, and each left out alone.
use crate::pairs::{come_to, digits, sheet};
use crate::rows::{NUMBERS, Odd, ROWS, odd_holds};
use sheets::finding::PairState;
use sheets::finding::PairState::{Err1, Err2, Mach};
use std::alloc::{AllocError, Global};
use std::test::Fail;

// Categories of a row with code 5, and what it comes to if its field differs.
const CATEGORIES: &[(u8, PairState)] = &[(1, Err1), (2, Err2)];

// Whether a field alone, under code 5, differs between two texts, and matches on one text.
fn is_exact(
    heap: Global,
    field: u8,
    tag: u8,
    text: &[u8],
    other: &[u8],
) -> Result<bool, AllocError> {
    for (category, state) in CATEGORIES {
        let Some(sheet) = sheet(heap, &[(field, 5, *category)])? else {
            return Ok(false);
        };
        let apart = digits(heap, b'2', field, b'1')?;
        let equal = digits(heap, b'2', field, b'0')?;
        let differs = come_to(
            heap,
            &sheet,
            &[(tag, text)],
            &[(tag, other)],
            &apart,
            *state,
        )?;
        let lacks = come_to(heap, &sheet, &[(tag, text)], &[], &apart, *state)?;
        let matches = come_to(heap, &sheet, &[(tag, text)], &[(tag, text)], &equal, Mach)?;
        if !differs || !lacks || !matches {
            return Ok(false);
        }
    }
    Ok(true)
}

#[test]
fn any_field_is_compared_exactly(rt: HostRuntime) -> Result<(), Fail> {
    let heap = rt.alloc();
    for (field, tag, text, _, other, _) in ROWS {
        // sides that are opposite are not equal
        let other = if *field == 0 { b"S".as_slice() } else { *other };
        let exact = is_exact(heap, *field, *tag, text, other)?;
        assert!(rt; exact, "field {field}");
    }
    Ok(())
}

// Whether a field that is left out finds nothing, whatever the texts.
fn is_left_out(heap: Global, odd: &Odd) -> Result<bool, AllocError> {
    let mut rows = Vec::new(heap);
    for row in NUMBERS {
        rows.push(if row.0 == odd.field {
            (row.0, 0, 3)
        } else {
            *row
        })?;
    }
    match sheet(heap, &rows)? {
        Some(sheet) => odd_holds(heap, &sheet, odd),
        None => Ok(false),
    }
}

#[test]
fn any_field_is_left_out(rt: HostRuntime) -> Result<(), Fail> {
    let heap = rt.alloc();
    for (field, tag, text, alike, other, _) in ROWS {
        for second in [Some(*alike), Some(*other), None] {
            let odd = Odd {
                field: *field,
                tag: *tag,
                first: Some(*text),
                second,
                digit: b'2',
                state: Mach,
            };
            let left_out = is_left_out(heap, &odd)?;
            assert!(rt; left_out, "field {field}");
        }
    }
    Ok(())
}
