// Lines of journals, and what they are answered.
use built_sheets::chosen::ChosenSheet;
use built_sheets::kdpw::KdpwSheet;
use desk::opening::Opening;
use rows::row::Row;
use std::alloc::Global;
use std::process::Abort;
use std::test::Fail;
use verbs::answers::answer_line;
use verbs::settings::Settings;
use verbs::shelf::Shelf;

fn settings(alloc: Global) -> Settings {
    Settings {
        sheet: ChosenSheet::Kdpw(KdpwSheet),
        parties: Vec::new(alloc),
        countries: Vec::new(alloc),
        opening: None,
    }
}

fn is_answered(
    rt: &impl Abort,
    alloc: Global,
    settings: &mut Settings,
    shelf: &mut Shelf<'_>,
    call: &(&[u8], &str),
) -> Result<(), Fail> {
    let (line, text) = call;
    let Ok(Some(answer)) = answer_line(alloc, settings, shelf, line) else {
        return Err(Fail::new("not answered"));
    };
    assert!(rt; answer.as_str() == *text, "{answer}");
    Ok(())
}

fn is_no_call(
    rt: &impl Abort,
    alloc: Global,
    shelf: &mut Shelf<'_>,
    call: &(&[u8], &str),
) -> Result<(), Fail> {
    let (line, text) = call;
    let Err(fault) = answer_line(alloc, &mut settings(alloc), shelf, line) else {
        return Err(Fail::new("taken for a call"));
    };
    let told = fault.to_string(alloc)?;
    assert!(rt; told.as_str() == *text, "{told}");
    Ok(())
}

fn is_passed_over(alloc: Global, line: &[u8]) -> Result<(), Fail> {
    match answer_line(alloc, &mut settings(alloc), &mut Shelf::Empty, line) {
        Ok(None) => Ok(()),
        _ => Err(Fail::new("not passed over")),
    }
}

const ANSWERED: &[(&[u8], &str)] = &[
    (b"price 00000000000000000100 104", "price 100 104 differs"),
    (b"\t price  -0.00\t0 ", "price 0 0 matches"),
    (b"%70rice 1%2E50 1.5", "price 1.5 1.5 matches"),
    (
        b"notional 99999999999999999999 99999999999999999999",
        "notional 99999999999999999999 99999999999999999999 matches",
    ),
    (b"price 1E2 .5", "price refused 3 bad field tag 18 first"),
    (b"price 1 2\xb2", "price refused 3 bad field tag 18 second"),
    (
        b"notional 1%202 5",
        "notional refused 3 bad field tag 21 first",
    ),
    (
        b" day\t2020-04-09",
        "day 2020-04-09 business next 2020-04-14 second 2020-04-15",
    ),
    (b"day 20200409", "day refused 3 bad field tag 8"),
    (b"slip 0100020C00022542", "slip 1 fields\n  12 at 0 %25B"),
    (b"slip 00", "slip refused 1 torn slip"),
    (b"write 001=T1 3=L", "write refused 2 field missing tag 2"),
    (b"write 255=A", "write refused 1 torn slip"),
    (b"write 0100", "write refused 1 torn slip"),
    (b"sheet kdpw", "sheet kdpw"),
    (b"sheet 0F", "sheet refused 14 bad sheet"),
    (b"compare 00 000000", "compare refused 1 torn slip first"),
    (b"open 2020-08-03", "open 2020-08-03 4096 rows"),
    (b"open 2020-08-03 07", "open 2020-08-03 7 rows"),
    (
        b"open 2020-08-03 18446744073709551615",
        "open 2020-08-03 4096 rows",
    ),
    (b"open 2020-08-02 1", "open refused 13 not a business day"),
    (b"open today", "open refused 13 not a business day"),
    (b"register 259400LUPUA1BSPB4X83", "register 1 entries"),
    (
        b"register 259400LUPUA1BSPB4X83 259400LUPUA1BSPB4X8",
        "register refused 3 bad field tag 2",
    ),
    (b"register", "register 0 entries"),
    (b"countries PL DE PL", "countries 3 entries"),
    (b"countries PL DEU", "countries refused 3 bad field tag 5"),
];

#[test]
fn calls_are_answered(rt: HostRuntime) -> Result<(), Fail> {
    let alloc = rt.alloc();
    for call in ANSWERED {
        is_answered(&rt, alloc, &mut settings(alloc), &mut Shelf::Empty, call)?;
    }
    Ok(())
}

const NO_CALLS: &[(&[u8], &str)] = &[
    (b"prise 1 2", "unknown verb prise"),
    (b"a%0Ab", "unknown verb a%0Ab"),
    (b"price 1", "price takes 2 words, not 1"),
    (b"notional 1 2 3", "notional takes 2 words, not 3"),
    (b"day", "day takes 1 word, not 0"),
    (b"day 2020-04-09 1", "day takes 1 word, not 2"),
    (b"slip", "slip takes 1 word, not 0"),
    (b"slip 0", "bad hexadecimal in 0"),
    (b"slip 0x00%20", "bad hexadecimal in 0x00%20"),
    (b"write", "no word for a slip"),
    (b"write 010", "bad hexadecimal in 010"),
    (b"write 256=A", "no TAG=TEXT in 256=A"),
    (b"write 1=A 00", "no TAG=TEXT in 00"),
    (b"sheet", "sheet takes 1 word, not 0"),
    (b"sheet KDPW", "bad hexadecimal in KDPW"),
    (b"compare 00", "compare takes 2 words, not 1"),
    (b"compare 00 0", "bad hexadecimal in 0"),
    (b"price 1%2 1", "bad escape in 1%252"),
    (b"price 1 %G0", "bad escape in %25G0"),
    (b"open", "open takes 1 or 2 words, not 0"),
    (b"open 2020-08-03 1 2", "open takes 1 or 2 words, not 3"),
    (b"open 2020-08-02 0x1", "bad number in 0x1"),
    (
        b"open 2020-08-03 18446744073709551616",
        "bad number in 18446744073709551616",
    ),
    (b"report", "no book is open"),
    (b"close 1 2", "no book is open"),
    (b"lookup T1", "no book is open"),
    (b"rows", "no book is open"),
];

#[test]
fn other_lines_are_told_what_is_wrong(rt: HostRuntime) -> Result<(), Fail> {
    for call in NO_CALLS {
        is_no_call(&rt, rt.alloc(), &mut Shelf::Empty, call)?;
    }
    Ok(())
}

#[test]
fn blanks_and_comments_are_passed_over(rt: HostRuntime) -> Result<(), Fail> {
    let alloc = rt.alloc();
    is_passed_over(alloc, b"")?;
    is_passed_over(alloc, b" \t ")?;
    is_passed_over(alloc, b"  # price %")?;
    is_passed_over(alloc, b"#price 1 2")
}

// One after the other, on a book of one row.
const ON_BOOK: &[(&[u8], &str)] = &[
    (b"rows", "rows 0"),
    (b"lookup T1 L C", "lookup refused 3 bad field tag 2"),
    (
        b"report 1=T1 2=259400LUPUA1BSPB4X83 3=C 4=C7 5=PL 6=N 7=T 8=2020-07-31 9=B 22=2020-07-31T10:00:00Z",
        "report accepted",
    ),
    (b"report 1=T1", "report refused 2 field missing tag 2"),
    (
        b"rows",
        "rows 1\n  T1 259400LUPUA1BSPB4X83 C7 active due 2020-08-04 tries 0 WAIT",
    ),
    (b"close 0", "close refused 10 notice list short"),
    (
        b"close 1",
        "close 0 notices, 0 pairs taken up, next day 2020-08-04",
    ),
    (
        b"close",
        "close 1 notices, 0 pairs taken up, next day 2020-08-05\n  T1 259400LUPUA1BSPB4X83 C7 OUTS 2222222222222222222222222222222222222222222222222222222222222222",
    ),
    (
        b"lookup T1 259400LUPUA1BSPB4X83 C7",
        "lookup OUTS 2222222222222222222222222222222222222222222222222222222222222222",
    ),
];

// Lines that are no calls, though a book is open.
const NOT_ON_BOOK: &[(&[u8], &str)] = &[
    (b"report", "no word for a slip"),
    (b"report 0", "bad hexadecimal in 0"),
    (b"close 1 2", "close takes 1 word at most, not 2"),
    (b"close -1", "bad number in -1"),
    (b"lookup T1 L", "lookup takes 3 words, not 2"),
    (b"rows 1", "rows takes no word, not 1"),
];

#[test]
fn calls_on_a_book_are_answered(rt: HostRuntime) -> Result<(), Fail> {
    let alloc = rt.alloc();
    let mut rows = [Row::blank()];
    let opening = Opening::read(&ChosenSheet::Kdpw(KdpwSheet), b"2020-08-03", 1)?;
    let mut shelf = Shelf::Holds(opening.open(&mut rows));
    let mut settings = settings(alloc);
    for call in ON_BOOK {
        is_answered(&rt, alloc, &mut settings, &mut shelf, call)?;
    }
    for call in NOT_ON_BOOK {
        is_no_call(&rt, alloc, &mut shelf, call)?;
    }
    Ok(())
}
