// What is told of a slip in which several things are wrong.
use crate::slips::{FULL, refused, slip, with, without};
use refusals::refusal::Refusal;
use refusals::tag::Tag;
use report::report::Report;
use std::alloc::{AllocError, Global};
use std::test::Fail;

// What is wrong, the tags that are not there, the texts that stand in place of right ones, and what is told. An empty
// text tears the slip.
const FAULTS: &[(&str, &[u8], &[(u8, &[u8])], Refusal)] = &[
    (
        "torn, and a field missing",
        &[1],
        &[(11, b"")],
        Refusal::TornSlip,
    ),
    (
        "torn, and the action bad",
        &[],
        &[(6, b"X"), (11, b"")],
        Refusal::TornSlip,
    ),
    (
        "torn, and a needed field missing",
        &[22],
        &[(11, b"")],
        Refusal::TornSlip,
    ),
    (
        "torn, and a text bad",
        &[],
        &[(1, b" "), (11, b"")],
        Refusal::TornSlip,
    ),
    (
        "torn, and all else",
        &[5, 8, 22],
        &[(1, b" "), (6, b"X"), (11, b"")],
        Refusal::TornSlip,
    ),
    (
        "a field missing, and the action bad",
        &[5],
        &[(6, b"X")],
        Refusal::FieldMissing(Tag::OtherCountry),
    ),
    (
        "the first missing, and the action bad",
        &[1],
        &[(6, b"n")],
        Refusal::FieldMissing(Tag::TradeId),
    ),
    (
        "a field missing, and a needed one",
        &[4, 7],
        &[],
        Refusal::FieldMissing(Tag::OtherCounterparty),
    ),
    (
        "a field missing, and a lower one bad",
        &[5],
        &[(1, b" ")],
        Refusal::FieldMissing(Tag::OtherCountry),
    ),
    (
        "a field missing, and all else but torn",
        &[3, 7, 25],
        &[(2, b"X"), (6, b"X"), (18, b"1E2")],
        Refusal::FieldMissing(Tag::OtherKind),
    ),
    (
        "the action missing, and lower ones bad",
        &[6],
        &[(1, b" "), (2, b"X")],
        Refusal::FieldMissing(Tag::Action),
    ),
    (
        "the action bad, and all missing that one needs",
        &[7, 8, 9, 22, 25],
        &[(6, b"n")],
        Refusal::BadField(Tag::Action),
    ),
    (
        "the action bad, and lower ones bad",
        &[],
        &[(1, b" "), (5, b"POL"), (6, b"NN")],
        Refusal::BadField(Tag::Action),
    ),
    (
        "the action bad, and all else after it",
        &[7, 22, 25],
        &[(1, b" "), (6, b"T"), (8, b"2020-02-30")],
        Refusal::BadField(Tag::Action),
    ),
    (
        "a needed field missing, and lower ones bad",
        &[22],
        &[(1, b" "), (7, b"X"), (9, b"X")],
        Refusal::FieldMissing(Tag::ExecutionTimestamp),
    ),
    (
        "the level missing, and the first bad",
        &[7],
        &[(1, b" ")],
        Refusal::FieldMissing(Tag::Level),
    ),
    (
        "the valuation missing, and lower ones bad",
        &[25],
        &[(2, b"X"), (6, b"V"), (18, b"1E2")],
        Refusal::FieldMissing(Tag::Valuation),
    ),
    (
        "a component at level P, and a needed field missing",
        &[22],
        &[(6, b"P"), (7, b"P")],
        Refusal::FieldMissing(Tag::ExecutionTimestamp),
    ),
    (
        "a component at level P, and a lower field bad",
        &[],
        &[(5, b"POL"), (6, b"P"), (7, b"P")],
        Refusal::BadField(Tag::OtherCountry),
    ),
    (
        "a component at level P, and higher fields bad",
        &[],
        &[(6, b"P"), (7, b"P"), (8, b"2020-02-30"), (25, b"+1")],
        Refusal::BadField(Tag::Level),
    ),
    (
        "a component at a level that is none",
        &[],
        &[(6, b"P"), (7, b"X"), (8, b"2020-02-30")],
        Refusal::BadField(Tag::Level),
    ),
    (
        "the kind bad, and what it judges",
        &[],
        &[(3, b"X"), (4, b"k")],
        Refusal::BadField(Tag::OtherKind),
    ),
    (
        "a termination with bad fields that it does not need",
        &[7, 9, 22, 25],
        &[(6, b"C"), (8, b"2020-02-30"), (18, b"1E2")],
        Refusal::BadField(Tag::EligibleDate),
    ),
    (
        "an error with a bad valuation alone",
        &[7, 8, 9, 22],
        &[(6, b"E"), (25, b"+1")],
        Refusal::BadField(Tag::Valuation),
    ),
    (
        "a new report with a bad valuation, which it does not need",
        &[],
        &[(25, b"+1")],
        Refusal::BadField(Tag::Valuation),
    ),
];

fn told_of(
    heap: Global,
    lacking: &[u8],
    changes: &[(u8, &'static [u8])],
) -> Result<Option<Refusal>, AllocError> {
    let mut fields = with(heap, FULL, 6, b"N")?;
    for tag in lacking {
        fields = without(heap, &fields, *tag)?;
    }
    for (tag, text) in changes {
        fields = with(heap, &fields, *tag, text)?;
    }
    refused(heap, &fields)
}

#[test]
fn faults_are_told_in_their_order(rt: HostRuntime) -> Result<(), Fail> {
    let heap = rt.alloc();
    for (fault, lacking, changes, refusal) in FAULTS {
        let told = told_of(heap, lacking, changes)?;
        assert_eq!(rt; told, Some(*refusal), "{fault}");
    }
    Ok(())
}

// Fields that can be laid out in no slip, by what is wrong with them.
const TORN: &[(&str, &[(u8, &[u8])])] = &[
    ("tag 0", &[(0, b"N"), (1, b"A1")]),
    ("tag 26", &[(25, b"1"), (26, b"N")]),
    ("two fields with one tag", &[(6, b"N"), (6, b"N")]),
    ("falling tags", &[(7, b"T"), (6, b"N")]),
    ("a text that is empty", &[(6, b"N"), (7, b"")]),
];

#[test]
fn torn_slips_are_told_first(rt: HostRuntime) -> Result<(), Fail> {
    let heap = rt.alloc();
    for (fault, fields) in TORN {
        let told = refused(heap, fields)?;
        assert_eq!(rt; told, Some(Refusal::TornSlip), "{fault}");
    }
    let mut bytes = slip(heap, FULL)?;
    assert!(rt; Report::read(&bytes).is_ok());
    for size in 0..bytes.len() {
        let told = Report::read(&bytes[..size]).err();
        assert!(rt; told == Some(Refusal::TornSlip), "the first {size} bytes");
    }
    bytes.push(b'1')?;
    let told = Report::read(&bytes).err();
    assert!(rt; told == Some(Refusal::TornSlip), "a byte too many");
    // without fields it is whole, and lacks the first
    let told = Report::read(&[0, 0, 0]).err();
    assert!(rt;
        told == Some(Refusal::FieldMissing(Tag::TradeId)),
        "no fields"
    );
    Ok(())
}
