// Each action with what it needs and nothing more, and the level of a report that goes into a position.
use crate::said::differing;
use crate::slips::{FULL, NEEDS, bad, only, refused, slip, with};
use fields::field::report::Action;
use report::report::Report;
use std::alloc::{AllocError, Global};
use std::test::Fail;

// The actions, in the order of NEEDS.
const ACTIONS: &[Action] = &[
    Action::New,
    Action::PositionComponent,
    Action::Modify,
    Action::Correction,
    Action::ValuationUpdate,
    Action::EarlyTermination,
    Action::Compression,
    Action::Error,
];

// Whether a report that has just these fields has this action, and says nothing else.
fn is_enough(
    heap: Global,
    letter: &'static [u8],
    needed: &[u8],
    action: Action,
) -> Result<bool, AllocError> {
    let fields = with(heap, &only(heap, FULL, needed)?, 6, letter)?;
    match Report::read(&slip(heap, &fields)?) {
        Ok(report) => Ok(report.action == action && differing(&report, &fields).is_none()),
        Err(_) => Ok(false),
    }
}

#[test]
fn what_is_needed_is_enough(rt: HostRuntime) -> Result<(), Fail> {
    let heap = rt.alloc();
    assert!(rt; ACTIONS.len() == NEEDS.len());
    for ((letter, needed), action) in NEEDS.iter().zip(ACTIONS) {
        let enough = is_enough(heap, letter, needed, *action)?;
        assert!(rt; enough, "{}", letter.escape_ascii());
    }
    Ok(())
}

// Actions and levels, and whether the level is right.
const LEVELS: &[(&[u8], &[u8], bool)] = &[
    (b"N", b"T", true),
    (b"N", b"P", true),
    (b"P", b"T", true),
    (b"P", b"P", false),
    (b"M", b"T", true),
    (b"M", b"P", true),
    (b"R", b"T", true),
    (b"R", b"P", true),
    (b"V", b"T", true),
    (b"V", b"P", true),
    (b"C", b"T", true),
    (b"C", b"P", true),
    (b"Z", b"T", true),
    (b"Z", b"P", true),
    (b"E", b"T", true),
    (b"E", b"P", true),
];

fn is_leveled(heap: Global, action: &[u8], level: &[u8], right: bool) -> Result<bool, AllocError> {
    let fields = with(heap, FULL, 6, action)?;
    let fields = with(heap, &fields, 7, level)?;
    let told = if right { None } else { bad(7) };
    Ok(refused(heap, &fields)? == told)
}

#[test]
fn components_are_trades(rt: HostRuntime) -> Result<(), Fail> {
    let heap = rt.alloc();
    for (action, level, right) in LEVELS {
        let leveled = is_leveled(heap, action, level, *right)?;
        assert!(rt;
            leveled,
            "{} at {}",
            action.escape_ascii(),
            level.escape_ascii()
        );
    }
    Ok(())
}
