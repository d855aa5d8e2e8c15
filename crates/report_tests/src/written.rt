// Reports written as slips, and the texts of their fields.
use crate::limits;
use crate::said::{differing, text_at};
use crate::slips::{FULL, NEEDS, only, slip, with};
use refusals::refusal::Refusal;
use refusals::tag::Tag;
use report::details::Details;
use report::report::Report;
use slip_writer::text::field_text;
use slip_writer::write::{LONGEST, write_report};
use std::alloc::{AllocError, Global};
use std::test::Fail;

// Whether a report is written as the slip of these fields, which reads as a report that says the same.
fn is_written(heap: Global, report: &Report, fields: &[(u8, &[u8])]) -> Result<bool, AllocError> {
    let mut out = [0; LONGEST];
    let Ok(len) = write_report(report, &mut out) else {
        return Ok(false);
    };
    let Some(written) = out.get(..len) else {
        return Ok(false);
    };
    if written != slip(heap, fields)?.as_slice() {
        return Ok(false);
    }
    match Report::read(written) {
        Ok(again) => Ok(differing(&again, fields).is_none()),
        Err(_) => Ok(false),
    }
}

// Whether a field's text is this, or there is none where this is empty.
fn text_is(told: Option<&[u8]>, text: &[u8]) -> bool {
    match told {
        Some(told) => !text.is_empty() && told == text,
        None => text.is_empty(),
    }
}

fn field_is(report: &Report, tag: u8, text: &[u8]) -> bool {
    let Some(tag) = Tag::of_number(tag) else {
        return false;
    };
    let told = field_text(report, tag);
    text_is(told.as_ref().map(|told| told.as_slice()), text)
}

// Whether the borrowed texts of the details are those of these fields.
fn lends(details: &Details, fields: &[(u8, &[u8])]) -> bool {
    text_is(details.product_id_text(), text_at(fields, 11))
        && text_is(details.underlying_id_text(), text_at(fields, 13))
        && text_is(details.notional_currency_1_text(), text_at(fields, 14))
        && text_is(details.notional_currency_2_text(), text_at(fields, 15))
        && text_is(details.venue_text(), text_at(fields, 16))
        && text_is(details.price_currency_text(), text_at(fields, 20))
}

// Whether the report of these fields has these texts, and is written as their slip.
fn is_right(
    heap: Global,
    fields: &[(u8, &[u8])],
    said: &[(u8, &[u8])],
) -> Result<bool, AllocError> {
    let Ok(report) = Report::read(&slip(heap, fields)?) else {
        return Ok(false);
    };
    let told = (1..=25).all(|tag| field_is(&report, tag, text_at(said, tag)));
    Ok(told && lends(&report.details, said) && is_written(heap, &report, said)?)
}

// Fields in shortest form, which are written as they were read.
const TABLES: &[&[(u8, &[u8])]] = &[FULL, limits::LONGEST, limits::SHORTEST];

#[test]
fn slips_are_written_as_read(rt: HostRuntime) -> Result<(), Fail> {
    let heap = rt.alloc();
    for fields in TABLES {
        let right = is_right(heap, fields, fields)?;
        assert!(rt; right, "{} bytes", slip(heap, fields)?.len());
    }
    Ok(())
}

fn is_needed_right(heap: Global, letter: &'static [u8], needed: &[u8]) -> Result<bool, AllocError> {
    let fields = with(heap, &only(heap, FULL, needed)?, 6, letter)?;
    is_right(heap, &fields, &fields)
}

// Fields that are not there are not written.
#[test]
fn what_is_needed_is_written(rt: HostRuntime) -> Result<(), Fail> {
    let heap = rt.alloc();
    for (letter, needed) in NEEDS {
        let right = is_needed_right(heap, letter, needed)?;
        assert!(rt; right, "{}", letter.escape_ascii());
    }
    Ok(())
}

fn is_value_right(heap: Global, tag: u8, text: &[u8], said: &[u8]) -> Result<bool, AllocError> {
    let fields = with(heap, FULL, tag, text)?;
    let said = with(heap, FULL, tag, said)?;
    is_right(heap, &fields, &said)
}

// Amounts as short as can be, all else as it stands.
#[test]
fn values_are_written(rt: HostRuntime) -> Result<(), Fail> {
    let heap = rt.alloc();
    for (tags, text, said) in limits::VALUES {
        for tag in *tags {
            let right = is_value_right(heap, *tag, text, said)?;
            assert!(rt; right, "tag {tag}: {}", text.escape_ascii());
        }
    }
    Ok(())
}

// What stands in a buffer before a slip is written to it.
const BEFORE: u8 = 0xa5;

// Whether a buffer of this size takes the slip at its front and keeps what is behind, or is refused as it stands.
fn is_buffer_right(
    heap: Global,
    report: &Report,
    slip: &[u8],
    size: usize,
) -> Result<bool, AllocError> {
    let mut out = vec![in heap; BEFORE; size]?;
    let answer = write_report(report, &mut out);
    if size < slip.len() {
        let kept = out.iter().all(|byte| *byte == BEFORE);
        return Ok(kept && answer == Err(Refusal::SlipBufferShort));
    }
    let kept = out.iter().skip(slip.len()).all(|byte| *byte == BEFORE);
    Ok(kept && answer == Ok(slip.len()) && out.starts_with(slip))
}

// Shown on the longest slip, which is as long as the writer says.
#[test]
fn buffers_keep_what_is_not_written(rt: HostRuntime) -> Result<(), Fail> {
    let heap = rt.alloc();
    let bytes = slip(heap, limits::LONGEST)?;
    assert_eq!(rt; bytes.len(), LONGEST);
    let Ok(report) = Report::read(&bytes) else {
        return Err(Fail::new("refused"));
    };
    for size in 0..LONGEST + 10 {
        let right = is_buffer_right(heap, &report, &bytes, size)?;
        assert!(rt; right, "{size} bytes");
    }
    Ok(())
}
