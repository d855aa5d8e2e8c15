// Sheets that are read, and sheets that are refused.
use crate::pairs::sheet_bytes;
use crate::rows::NUMBERS;
use built_sheets::tabled::TabledSheet;
use refusals::refusal::Refusal;
use std::alloc::{AllocError, Global};
use std::test::Fail;

fn is_refused(bytes: &[u8]) -> bool {
    TabledSheet::read(bytes).err() == Some(Refusal::BadSheet)
}

#[test]
fn sheets_have_31_bytes(rt: HostRuntime) -> Result<(), Fail> {
    let heap = rt.alloc();
    let mut bytes = sheet_bytes(heap, NUMBERS)?;
    assert!(rt; bytes.len() == 31);
    assert!(rt; TabledSheet::read(&bytes).is_ok());
    for len in 0usize..31 {
        let Some(front) = bytes.get(..len) else {
            return Err(Fail::new("short"));
        };
        assert!(rt; is_refused(front), "{len} bytes");
    }
    bytes.push(3)?;
    assert!(rt; is_refused(&bytes), "32 bytes");
    bytes.push(3)?;
    assert!(rt; is_refused(&bytes), "33 bytes");
    Ok(())
}

// A sheet with another number at its front.
fn counted(heap: Global, count: u8) -> Result<Vec<u8>, AllocError> {
    let mut bytes = vec![in heap; count]?;
    if let Some(rest) = sheet_bytes(heap, NUMBERS)?.get(1..) {
        bytes.extend_from_slice(rest)?;
    }
    Ok(bytes)
}

// Sheets that would be right, had they fifteen fields.
const FOURTEEN: &[u8] =
    b"\x0e\x06\x05\x05\x05\x05\x05\x05\x05\x01\x05\x05\x02\x03\x04\x01\x01\x01\x01\x01\x02\x02\x02\x02\x01\x01\x01\x02\x02";

const SIXTEEN: &[u8] =
    b"\x10\x06\x05\x05\x05\x05\x05\x05\x05\x01\x05\x05\x02\x03\x04\x01\x05\x01\x01\x01\x01\x01\x02\x02\x02\x02\x01\x01\x01\x02\x02\x02\x02";

#[test]
fn fields_are_fifteen(rt: HostRuntime) -> Result<(), Fail> {
    let heap = rt.alloc();
    for count in 0u8..=255 {
        let bytes = counted(heap, count)?;
        assert!(rt; is_refused(&bytes) == (count != 15), "{count} fields");
    }
    assert!(rt; is_refused(FOURTEEN));
    assert!(rt; is_refused(SIXTEEN));
    Ok(())
}

// The codes that fit each field in a category that weighs: amounts are compared by 1 and 2, timestamps by 3 and 4, the
// side by 6, and all fields by 5.
const FITTING: &[&[u8]] = &[
    &[5, 6],
    &[5],
    &[5],
    &[5],
    &[5],
    &[5],
    &[5],
    &[5],
    &[1, 2, 5],
    &[5],
    &[5],
    &[1, 2, 5],
    &[3, 4, 5],
    &[3, 4, 5],
    &[1, 2, 5],
];

const CODES: &[u8] = &[0, 1, 2, 3, 4, 5, 6, 7, 8, 53, 128, 255];

const CATEGORIES: &[u8] = &[0, 1, 2, 3, 4, 5, 49, 128, 255];

// Whether a sheet is read exactly if its one row is right.
fn is_judged(heap: Global, field: u8, fitting: &[u8], code: u8) -> Result<bool, AllocError> {
    for category in CATEGORIES {
        let bytes = sheet_bytes(heap, &[(field, code, *category)])?;
        let right = match category {
            1 | 2 => fitting.contains(&code),
            3 => code == 0,
            _ => false,
        };
        if is_refused(&bytes) == right {
            return Ok(false);
        }
    }
    Ok(true)
}

#[test]
fn codes_fit_their_fields(rt: HostRuntime) -> Result<(), Fail> {
    let heap = rt.alloc();
    assert!(rt; FITTING.len() == 15);
    for (field, fitting) in (0u8..15).zip(FITTING) {
        for code in CODES {
            let judged = is_judged(heap, field, fitting, *code)?;
            assert!(rt; judged, "code {code} at field {field}");
        }
    }
    Ok(())
}
