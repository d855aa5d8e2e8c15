// Slips laid out from tags and texts, and the fields that the tests begin with.
use refusals::refusal::Refusal;
use refusals::tag::Tag;
use report::report::Report;
use std::alloc::{AllocError, Global};

// All fields, each with a text that is right.
pub const FULL: &[(u8, &[u8])] = &[
    (1, b"KDPW-2020:0001"),
    (2, b"259400LUPUA1BSPB4X83"),
    (3, b"L"),
    (4, b"529900T8BM49AURSDO55"),
    (5, b"DE"),
    (6, b"N"),
    (7, b"T"),
    (8, b"2020-08-03"),
    (9, b"B"),
    (10, b"I"),
    (11, b"PLX000000001"),
    (12, b"I"),
    (13, b"PL0000000001"),
    (14, b"PLN"),
    (15, b"EUR"),
    (16, b"XOFF"),
    (17, b"N"),
    (18, b"12.5"),
    (19, b"U"),
    (20, b"PLN"),
    (21, b"1250"),
    (22, b"2020-08-03T10:00:00Z"),
    (23, b"2020-08-03T12:30:00Z"),
    (24, b"4.25"),
    (25, b"-3.5"),
];

// The actions by their letters, and the tags that a report with each of them needs.
pub const NEEDS: &[(&[u8], &[u8])] = &[
    (b"N", &[1, 2, 3, 4, 5, 6, 7, 8, 9, 22]),
    (b"P", &[1, 2, 3, 4, 5, 6, 7, 8, 9, 22]),
    (b"M", &[1, 2, 3, 4, 5, 6, 7, 8, 9, 22]),
    (b"R", &[1, 2, 3, 4, 5, 6, 7, 8, 9, 22]),
    (b"V", &[1, 2, 3, 4, 5, 6, 25]),
    (b"C", &[1, 2, 3, 4, 5, 6]),
    (b"Z", &[1, 2, 3, 4, 5, 6]),
    (b"E", &[1, 2, 3, 4, 5, 6]),
];

fn two_bytes(number: usize) -> [u8; 2] {
    let [.., high, low] = number.to_be_bytes();
    [high, low]
}

// The bytes of these fields, in this order and whatever they are: an empty text or tags that fall make a torn slip.
pub fn slip(heap: Global, fields: &[(u8, &[u8])]) -> Result<Vec<u8>, AllocError> {
    let mut tags = Vec::new(heap);
    let mut ends = Vec::new(heap);
    let mut texts = Vec::new(heap);
    for (tag, text) in fields {
        texts.extend_from_slice(text)?;
        ends.extend_from_slice(&two_bytes(texts.len()))?;
        tags.push(*tag)?;
    }
    let [.., count] = fields.len().to_be_bytes();
    let mut bytes = vec![in heap; count]?;
    bytes.extend_from_slice(&two_bytes(texts.len()))?;
    bytes.extend_from_slice(&tags)?;
    bytes.extend_from_slice(&ends)?;
    bytes.extend_from_slice(&texts)?;
    Ok(bytes)
}

// These fields with this text at this tag, in place of the one there or between its neighbours.
pub fn with<'t>(
    heap: Global,
    fields: &[(u8, &'t [u8])],
    tag: u8,
    text: &'t [u8],
) -> Result<Vec<(u8, &'t [u8])>, AllocError> {
    let mut changed = Vec::new(heap);
    for field in fields.iter().filter(|field| field.0 < tag) {
        changed.push(*field)?;
    }
    changed.push((tag, text))?;
    for field in fields.iter().filter(|field| field.0 > tag) {
        changed.push(*field)?;
    }
    Ok(changed)
}

// These fields without the one at this tag.
pub fn without<'t>(
    heap: Global,
    fields: &[(u8, &'t [u8])],
    tag: u8,
) -> Result<Vec<(u8, &'t [u8])>, AllocError> {
    let mut left = Vec::new(heap);
    for field in fields.iter().filter(|field| field.0 != tag) {
        left.push(*field)?;
    }
    Ok(left)
}

// Those of these fields that stand at one of the tags.
pub fn only<'t>(
    heap: Global,
    fields: &[(u8, &'t [u8])],
    tags: &[u8],
) -> Result<Vec<(u8, &'t [u8])>, AllocError> {
    let mut left = Vec::new(heap);
    for field in fields.iter().filter(|field| tags.contains(&field.0)) {
        left.push(*field)?;
    }
    Ok(left)
}

// How the slip of these fields is refused, if it is no report.
pub fn refused(heap: Global, fields: &[(u8, &[u8])]) -> Result<Option<Refusal>, AllocError> {
    Ok(Report::read(&slip(heap, fields)?).err())
}

pub fn missing(tag: u8) -> Option<Refusal> {
    Tag::of_number(tag).map(Refusal::FieldMissing)
}

pub fn bad(tag: u8) -> Option<Refusal> {
    Tag::of_number(tag).map(Refusal::BadField)
}
