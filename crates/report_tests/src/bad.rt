// Fields whose texts break the rule of their value.
use crate::slips::{FULL, NEEDS, bad, refused, slip, with};
use fields::field::report::PartyKind;
use refusals::refusal::Refusal;
use report::report::Report;
use std::alloc::{AllocError, Global};
use std::test::Fail;

const LEIS: &[&[u8]] = &[
    b"259400LUPUA1BSPB4X8",
    b"259400LUPUA1BSPB4X833",
    b"259400lupua1bspb4x83",
    b"259400LUPUA1BSPB4X8a",
    b"259400LUPUA1 SPB4X83",
    b"259400LUPUA1BSPB4X8 ",
    b" 259400LUPUA1BSPB4X8",
    b"259400-UPUA1BSPB4X83",
    b"259400LUPUA1BSPB4X8\0",
    b"AB12C",
    b" ",
];

// The first has 65 bytes. Blanks are right in such texts, wherever they stand.
const IDENTIFICATIONS: &[&[u8]] = &[
    b"12345678901234567890123456789012345678901234567890123456789012345",
    b"A\tB",
    b"A\n",
    b"\0",
    b"\x1f",
    b"\x7f",
    b"A\x80",
    b"\xffA",
    b"\xc5\xbb",
];

const CURRENCIES: &[&[u8]] = &[
    b"P", b"PL", b"PLNN", b"pln", b"PLn", b"PL1", b"PL ", b" PL", b"P N", b"PL\0", b"985",
];

// The first four have 21 digits.
const AMOUNTS: &[&[u8]] = &[
    b"000000000000000000100",
    b"0.00000000000000000000",
    b"123456789012345678901",
    b"-1.00000000000000000000",
    b"1E2",
    b"1e2",
    b".5",
    b"5.",
    b"-.5",
    b"-5.",
    b".",
    b"+1",
    b"--1",
    b"-",
    b"1-",
    b"- 1",
    b"1.2.3",
    b"1..2",
    b"1,5",
    b"1 2",
    b" 1",
    b"1 ",
    b"0x1",
    b"NaN",
    b"5\xb2",
    b"1\0",
];

const DATES: &[&[u8]] = &[
    b"2000-02-30",
    b"2023-02-29",
    b"2024-04-31",
    b"2020-00-10",
    b"2020-13-01",
    b"2020-01-00",
    b"2020-01-32",
    b"1999-12-31",
    b"2100-01-01",
    b"2020-4-09",
    b"2020-04-9",
    b"20-04-09",
    b"2020/04/09",
    b"20200409",
    b"09-04-2020",
    b"2020-04-09 ",
    b" 2020-04-09",
    b"2020-04- 9",
    b"2O20-04-09",
    b"+020-04-09",
    b"2020-04-09T00:00:00Z",
    b" ",
];

const TIMESTAMPS: &[&[u8]] = &[
    b"2020-08-03T24:00:00Z",
    b"2020-08-03T10:60:00Z",
    b"2020-08-03T10:00:60Z",
    b"2000-02-30T10:00:00Z",
    b"1999-12-31T23:59:59Z",
    b"2100-01-01T00:00:00Z",
    b"2020-08-03 10:00:00Z",
    b"2020-08-03t10:00:00Z",
    b"2020-08-03T10:00:00z",
    b"2020-08-03T10:00:00",
    b"2020-08-03T10:00:00ZZ",
    b"2020-08-03T10:00:00 ",
    b"2020-08-03T10:00:00+00:00",
    b"2020-08-03T10:00:00.000Z",
    b"2020-08-03T9:00:00Z",
    b"2020-08-03T 9:00:00Z",
    b"2020-08-03T10.00.00Z",
    b"2020-08-03T10:00Z",
    b"2020-08-03",
    b"10:00:00",
    b" ",
];

// Bad texts at each tag. The other counterparty is judged as an LEI.
const BAD: &[(u8, &[&[u8]])] = &[
    (
        1,
        &[
            b"12345678901234567890123456789012345678901234567890123",
            b"-A1",
            b"A1.",
            b":",
            b"_",
            b"A 1",
            b" A1",
            b"A1 ",
            b"A/1",
            b"A%1",
            b"A\0",
            b"A\x80B",
            b"\xc5\xbb",
        ],
    ),
    (2, LEIS),
    (
        3,
        &[
            b"l", b"c", b"LL", b"LC", b"L ", b"X", b"N", b"1", b" ", b"\0",
        ],
    ),
    (4, LEIS),
    (
        5,
        &[
            b"P", b"POL", b"pl", b"Pl", b"pL", b"P1", b"P ", b" P", b"PL ", b"P\0", b"48",
        ],
    ),
    (
        6,
        &[
            b"n", b"p", b"NN", b"NP", b"N ", b"T", b"X", b"A", b"B", b"1", b" ", b"\0",
        ],
    ),
    (
        7,
        &[
            b"t", b"p", b"TT", b"TP", b"T ", b"N", b"X", b"1", b" ", b"\0",
        ],
    ),
    (8, DATES),
    (
        9,
        &[
            b"b", b"s", b"BB", b"BS", b"B ", b"N", b"X", b"1", b" ", b"\0",
        ],
    ),
    (
        10,
        &[
            b"i", b"a", b"II", b"IA", b"I ", b"U", b"B", b"X", b" ", b"\0",
        ],
    ),
    (11, IDENTIFICATIONS),
    (
        12,
        &[
            b"i", b"u", b"II", b"IA", b"I ", b"C", b"N", b"Y", b" ", b"\0",
        ],
    ),
    (13, IDENTIFICATIONS),
    (14, CURRENCIES),
    (15, CURRENCIES),
    (
        16,
        &[
            b"XOF", b"XOFFF", b"xoff", b"XOFf", b"XO F", b"XOF ", b" XOF", b"XOF-", b"XOF\0",
        ],
    ),
    (
        17,
        &[
            b"y", b"n", b"YY", b"YN", b"Y ", b"T", b"X", b"1", b" ", b"\0",
        ],
    ),
    (18, AMOUNTS),
    (
        19,
        &[
            b"u", b"p", b"UU", b"UP", b"U ", b"N", b"X", b"%", b" ", b"\0",
        ],
    ),
    (20, CURRENCIES),
    (21, AMOUNTS),
    (22, TIMESTAMPS),
    (23, TIMESTAMPS),
    (24, AMOUNTS),
    // eleven digits, right in the other amounts
    (
        24,
        &[
            b"00000000001",
            b"12345678901",
            b"-1234567890.1",
            b"0.1234567890",
            b"1.0000000000",
        ],
    ),
    (25, AMOUNTS),
];

// Whether this text at this tag is told as bad in a report of each action, whether the action uses the field or not.
fn is_bad(heap: Global, tag: u8, text: &'static [u8]) -> Result<bool, AllocError> {
    for (action, _) in NEEDS {
        let fields = with(heap, FULL, 6, action)?;
        if refused(heap, &with(heap, &fields, tag, text)?)? != bad(tag) {
            return Ok(false);
        }
    }
    Ok(true)
}

#[test]
fn bad_texts_are_refused(rt: HostRuntime) -> Result<(), Fail> {
    let heap = rt.alloc();
    for (tag, texts) in BAD {
        for text in *texts {
            let told = is_bad(heap, *tag, text)?;
            assert!(rt; told, "tag {tag}: {}", text.escape_ascii());
        }
    }
    Ok(())
}

// No field's text is empty, so such a slip is torn.
#[test]
fn empty_texts_tear_a_slip(rt: HostRuntime) -> Result<(), Fail> {
    let heap = rt.alloc();
    for tag in 1..=25 {
        let told = refused(heap, &with(heap, FULL, tag, b"")?)?;
        assert!(rt; told == Some(Refusal::TornSlip), "tag {tag}");
    }
    Ok(())
}

// A text that is bad at every tag: no value has the byte 128 in its text.
const BAD_ANYWHERE: &[u8] = b"Z\x80\x80Z";

// Each two fields bad at once: the action is told before every other one, and else the lower of the two.
fn lower_is_told(heap: Global, low: u8, high: u8) -> Result<bool, AllocError> {
    let fields = with(heap, FULL, low, BAD_ANYWHERE)?;
    let fields = with(heap, &fields, high, BAD_ANYWHERE)?;
    let told = if high == 6 { high } else { low };
    Ok(refused(heap, &fields)? == bad(told))
}

#[test]
fn the_lowest_is_told(rt: HostRuntime) -> Result<(), Fail> {
    let heap = rt.alloc();
    for low in 1..=25 {
        for high in low..=25 {
            let lower = lower_is_told(heap, low, high)?;
            assert!(rt; lower, "tags {low} and {high}");
        }
    }
    Ok(())
}

// Kinds, and what is an identifier by each of them.
const PARTIES: &[(&[u8], &[u8], bool)] = &[
    (b"L", b"529900T8BM49AURSDO55", true),
    (b"L", b"00000000000000000000", true),
    (b"L", b"529900T8BM49AURSDO5", false),
    (b"L", b"AB12C", false),
    (b"L", b"K", false),
    (b"L", b"529900T8BM49AURSDO555", false),
    (b"C", b"529900T8BM49AURSDO55", true),
    (b"C", b"00000000000000000000", true),
    (b"C", b"529900T8BM49AURSDO5", true),
    (b"C", b"AB12C", true),
    (b"C", b"K", true),
    (b"C", b"7", true),
    (b"C", b"529900T8BM49AURSDO555", false),
    (b"C", b"KLIENT-1", false),
    (b"C", b"KLIENT 1", false),
    (b"C", b"klient", false),
    (b"C", b" ", false),
];

// Whether a report names its other counterparty so, or is refused for it.
fn is_named(heap: Global, letter: &[u8], text: &[u8], right: bool) -> Result<bool, AllocError> {
    let fields = with(heap, FULL, 3, letter)?;
    let fields = with(heap, &fields, 4, text)?;
    let kind = if letter == b"L".as_slice() {
        PartyKind::Lei
    } else {
        PartyKind::Client
    };
    match Report::read(&slip(heap, &fields)?) {
        Ok(report) => {
            let other = report.parties.other;
            Ok(right && other.kind() == kind && other.bytes() == text)
        }
        Err(refusal) => Ok(!right && Some(refusal) == bad(4)),
    }
}

#[test]
fn parties_are_named_by_their_kind(rt: HostRuntime) -> Result<(), Fail> {
    let heap = rt.alloc();
    for (letter, text, right) in PARTIES {
        let named = is_named(heap, letter, text, *right)?;
        assert!(rt; named, "{} {}", letter.escape_ascii(), text.escape_ascii());
    }
    Ok(())
}
