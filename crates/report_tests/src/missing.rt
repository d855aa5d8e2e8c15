// Fields that are not there: those that a report needs, and those that it does without.
use crate::said::differing;
use crate::slips::{FULL, NEEDS, missing, refused, slip, with, without};
use report::report::Report;
use std::alloc::{AllocError, Global};
use std::test::Fail;

// Whether a report of this action without these two fields is refused for the lower one that it needs, and reads as
// what is left of it where it needs neither.
fn is_judged(
    heap: Global,
    action: &[u8],
    needed: &[u8],
    low: u8,
    high: u8,
) -> Result<bool, AllocError> {
    let fields = with(heap, FULL, 6, action)?;
    let fields = without(heap, &without(heap, &fields, low)?, high)?;
    if needed.contains(&low) {
        return Ok(refused(heap, &fields)? == missing(low));
    }
    if needed.contains(&high) {
        return Ok(refused(heap, &fields)? == missing(high));
    }
    match Report::read(&slip(heap, &fields)?) {
        Ok(report) => Ok(differing(&report, &fields).is_none()),
        Err(_) => Ok(false),
    }
}

// Each field, and each two of them.
#[test]
fn reports_have_what_they_need(rt: HostRuntime) -> Result<(), Fail> {
    let heap = rt.alloc();
    for (action, needed) in NEEDS {
        for low in 1..=25 {
            for high in low..=25 {
                let judged = is_judged(heap, action, needed, low, high)?;
                assert!(rt;
                    judged,
                    "{} without {low} and {high}",
                    action.escape_ascii()
                );
            }
        }
    }
    Ok(())
}

// What is told of several fields that are not there.
const SEVERAL: &[(&[u8], &[u8], u8)] = &[
    (b"N", &[1, 2, 3, 4, 5, 6, 7, 8, 9, 22], 1),
    (b"N", &[2, 3, 4, 5, 6, 7, 8, 9, 22], 2),
    (b"N", &[3, 4, 5, 6, 7, 8, 9, 22], 3),
    (b"P", &[4, 5, 6, 7, 8, 9, 22], 4),
    (b"P", &[5, 6, 7, 8, 9, 22], 5),
    (b"M", &[6, 7, 8, 9, 22], 6),
    (b"M", &[7, 8, 9, 22], 7),
    (b"R", &[8, 9, 10, 11, 22], 8),
    (b"R", &[9, 10, 22, 25], 9),
    (b"N", &[10, 11, 22, 23, 25], 22),
    (b"V", &[7, 8, 9, 22, 25], 25),
    (b"V", &[5, 7, 8, 25], 5),
    (b"C", &[3, 7, 8, 9, 22, 25], 3),
    (b"Z", &[5, 6, 25], 5),
    (b"E", &[6, 7, 25], 6),
];

fn refused_without(heap: Global, action: &[u8], tags: &[u8], told: u8) -> Result<bool, AllocError> {
    let mut fields = with(heap, FULL, 6, action)?;
    for tag in tags {
        fields = without(heap, &fields, *tag)?;
    }
    Ok(refused(heap, &fields)? == missing(told))
}

#[test]
fn the_lowest_is_told(rt: HostRuntime) -> Result<(), Fail> {
    let heap = rt.alloc();
    for (action, tags, told) in SEVERAL {
        let right = refused_without(heap, action, tags, *told)?;
        assert!(rt; right, "{} without {tags:?}", action.escape_ascii());
    }
    Ok(())
}
