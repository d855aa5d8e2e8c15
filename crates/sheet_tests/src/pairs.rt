// Pairs of reports, given by their details, and what they come to.
use built_sheets::kdpw::KdpwSheet;
use built_sheets::tabled::TabledSheet;
use report::details::Details;
use report::report::Report;
use sheets::comparing::compare;
use sheets::finding::{Finding, PairState};
use sheets::sheet::Sheet;
use std::alloc::{AllocError, Global};
use std::process::Abort;

// Tags and texts, by their tags.
pub type Fields = &'static [(u8, &'static [u8])];

// Two reports, a digit for the finding at each field, and the state.
pub type Pair = (Fields, Fields, &'static [u8], PairState);

// A row of a client's sheet: its field, its code and its category.
pub type RowNumbers = (u8, u8, u8);

// What every report has. An early termination needs no details, so each of them can be left out.
const HEAD: &[(u8, &[u8])] = &[
    (1, b"KDPW-2020:0001"),
    (2, b"259400LUPUA1BSPB4X83"),
    (3, b"L"),
    (4, b"529900T8BM49AURSDO55"),
    (5, b"DE"),
    (6, b"C"),
];

fn two_bytes(number: usize) -> [u8; 2] {
    let [.., high, low] = number.to_be_bytes();
    [high, low]
}

fn slip(heap: Global, fields: &[(u8, &[u8])]) -> Result<Vec<u8>, AllocError> {
    let mut tags = Vec::new(heap);
    let mut ends = Vec::new(heap);
    let mut texts = Vec::new(heap);
    for (tag, text) in HEAD.iter().chain(fields) {
        texts.extend_from_slice(text)?;
        ends.extend_from_slice(&two_bytes(texts.len()))?;
        tags.push(*tag)?;
    }
    let [.., count] = tags.len().to_be_bytes();
    let mut bytes = vec![in heap; count]?;
    bytes.extend_from_slice(&two_bytes(texts.len()))?;
    bytes.extend_from_slice(&tags)?;
    bytes.extend_from_slice(&ends)?;
    bytes.extend_from_slice(&texts)?;
    Ok(bytes)
}

// The details of a report that has just these.
pub fn details(heap: Global, fields: &[(u8, &[u8])]) -> Result<Option<Details>, AllocError> {
    match Report::read(&slip(heap, fields)?) {
        Ok(report) => Ok(Some(report.details)),
        Err(_) => Ok(None),
    }
}

// These fields with this text at this tag, or with none there.
pub fn with<'t>(
    heap: Global,
    fields: &[(u8, &'t [u8])],
    tag: u8,
    text: Option<&'t [u8]>,
) -> Result<Vec<(u8, &'t [u8])>, AllocError> {
    let mut changed = Vec::new(heap);
    for field in fields.iter().filter(|field| field.0 < tag) {
        changed.push(*field)?;
    }
    if let Some(text) = text {
        changed.push((tag, text))?;
    }
    for field in fields.iter().filter(|field| field.0 > tag) {
        changed.push(*field)?;
    }
    Ok(changed)
}

// The digit of a finding.
fn digit(finding: Finding) -> u8 {
    match finding {
        Finding::Matches => b'0',
        Finding::Differs => b'1',
        Finding::NotCompared => b'2',
    }
}

// Whether findings have these digits. Behind the fifteen fields nothing is compared.
fn have_digits(findings: &[Finding], digits: &[u8]) -> bool {
    for (place, finding) in findings.iter().enumerate() {
        let wanted = digits.get(place).copied().unwrap_or(b'2');
        if digit(*finding) != wanted {
            return false;
        }
    }
    digits.len() == 15 && findings.len() == 64
}

// Fifteen digits of which one stands apart.
pub fn digits(heap: Global, all: u8, at: u8, one: u8) -> Result<Vec<u8>, AllocError> {
    let mut digits = Vec::new(heap);
    for place in 0u8..15 {
        digits.push(if place == at { one } else { all })?;
    }
    Ok(digits)
}

// Whether two reports come to these findings and this state, whichever of them is first.
pub fn come_to<S: Sheet>(
    heap: Global,
    sheet: &S,
    first: &[(u8, &[u8])],
    second: &[(u8, &[u8])],
    digits: &[u8],
    state: PairState,
) -> Result<bool, AllocError> {
    let (Some(first), Some(second)) = (details(heap, first)?, details(heap, second)?) else {
        return Ok(false);
    };
    let there = compare(sheet, &first, &second);
    let back = compare(sheet, &second, &first);
    Ok(
        there.state == state
            && back.state == state
            && have_digits(&there.findings, digits)
            && have_digits(&back.findings, digits),
    )
}

// Each of these pairs under the published table.
pub fn all_come_to(rt: &impl Abort, heap: Global, pairs: &[Pair]) -> Result<(), AllocError> {
    for (row, (first, second, digits, state)) in pairs.iter().enumerate() {
        let right = come_to(heap, &KdpwSheet, first, second, digits, *state)?;
        assert!(rt; right, "row {row}");
    }
    Ok(())
}

// The code and the category of a field. One that has no row is not compared.
fn numbers_at(rows: &[RowNumbers], field: u8) -> (u8, u8) {
    for (at, code, category) in rows {
        if *at == field {
            return (*code, *category);
        }
    }
    (0, 3)
}

// The bytes of a client's sheet that has just these rows.
pub fn sheet_bytes(heap: Global, rows: &[RowNumbers]) -> Result<Vec<u8>, AllocError> {
    let mut bytes = vec![in heap; 15u8]?;
    for field in 0u8..15 {
        bytes.push(numbers_at(rows, field).0)?;
    }
    for field in 0u8..15 {
        bytes.push(numbers_at(rows, field).1)?;
    }
    Ok(bytes)
}

pub fn sheet(heap: Global, rows: &[RowNumbers]) -> Result<Option<TabledSheet>, AllocError> {
    Ok(TabledSheet::read(&sheet_bytes(heap, rows)?).ok())
}
