// Tables of other sizes, and calls that are refused.
use crate::sides::{
    BUYER, SELLER, buyer_reports, countries, day, is_unused, parties, seller_reports, unused_notice,
};
use book::book::Book;
use built_sheets::kdpw::KdpwSheet;
use refusals::refusal::Refusal;
use refusals::tag::Tag;
use rows::row::Row;
use rows::state::State;
use sheets::comparing::PLACES;
use sheets::finding::Finding;
use std::alloc::Global;
use std::test::Fail;

// As many rows, each of which shows what no call would leave.
fn marked_rows(heap: Global, count: usize) -> Result<Vec<Row>, Fail> {
    let mut row = Row::blank();
    row.state = State::Mach;
    row.settled = true;
    Ok(vec![in heap; row; count]?)
}

fn is_marked(row: Option<&Row>) -> bool {
    row.is_some_and(|row| row.state == State::Mach && row.settled)
}

#[test]
fn rows_behind_a_book_stay(rt: HostRuntime) -> Result<(), Fail> {
    let (parties, countries) = (parties()?, countries()?);
    let mut rows = marked_rows(rt.alloc(), 4_097)?;
    let mut notices = [unused_notice()?; 2];
    let mut book = Book::open(day(b"2020-08-03")?, rows.as_mut_slice());
    assert!(rt; buyer_reports(&mut book)? == Ok(()) && seller_reports(&mut book)? == Ok(()));
    assert!(rt;
        book.close(&KdpwSheet, &parties, &countries, &mut notices)
            .is_ok()
    );
    assert!(rt; !is_marked(rows.get(0)) && !is_marked(rows.get(4_095)));
    assert!(rt; is_marked(rows.get(4_096)));
    Ok(())
}

#[test]
fn a_table_of_no_rows_is_full(rt: HostRuntime) -> Result<(), Fail> {
    let (parties, countries) = (parties()?, countries()?);
    let next_day = day(b"2020-08-04")?;
    let mut rows: [Row; 0] = [];
    let mut book = Book::open(day(b"2020-08-03")?, &mut rows);
    assert!(rt; buyer_reports(&mut book)? == Err(Refusal::BookFull));
    assert!(rt; book.close(&KdpwSheet, &parties, &countries, &mut []) == Ok((0, 0, next_day)));
    Ok(())
}

#[test]
fn the_second_side_needs_a_row_too(rt: HostRuntime) -> Result<(), Fail> {
    let mut rows = [Row::blank()];
    let mut book = Book::open(day(b"2020-08-03")?, &mut rows);
    assert!(rt; buyer_reports(&mut book)? == Ok(()));
    assert!(rt; buyer_reports(&mut book)? == Err(Refusal::AlreadyEntered));
    assert!(rt; seller_reports(&mut book)? == Err(Refusal::BookFull));
    assert!(rt; book.report(b"") == Err(Refusal::TornSlip) && book.rows().len() == 1);
    Ok(())
}

#[test]
fn a_refused_close_leaves_all(rt: HostRuntime) -> Result<(), Fail> {
    let (sides, countries) = (parties()?, countries()?);
    let disordered = [sides[1], sides[0]];
    let first_day = day(b"2020-08-03")?;
    let mut rows = [Row::blank(); 2];
    let mut notices = [unused_notice()?; 2];
    let mut one_place = [unused_notice()?];
    let mut book = Book::open(first_day, &mut rows);
    assert!(rt; buyer_reports(&mut book)? == Ok(()) && seller_reports(&mut book)? == Ok(()));
    assert!(rt;
        book.close(&KdpwSheet, &sides, &countries, &mut notices)
            .is_ok()
    );
    let today = book.day();
    let short = book.close(&KdpwSheet, &sides, &countries, &mut one_place);
    assert!(rt; short == Err(Refusal::NoticeListShort));
    let unordered = book.close(&KdpwSheet, &disordered, &countries, &mut notices);
    assert!(rt; unordered == Err(Refusal::RegisterDisordered));
    assert!(rt; book.day() == today && notices.iter().all(is_unused) && is_unused(&one_place[0]));
    assert!(rt; book.rows().len() == 2);
    assert!(rt;
        book.rows()
            .iter()
            .all(|row| row.state == State::Wait && !row.settled)
    );
    Ok(())
}

#[test]
fn lookups_that_are_refused_leave_their_place(rt: HostRuntime) -> Result<(), Fail> {
    let mut rows = [Row::blank(); 8];
    let mut book = Book::open(day(b"2020-08-03")?, &mut rows);
    assert!(rt; buyer_reports(&mut book)? == Ok(()));
    let mut findings = [Finding::Differs; PLACES];
    let unknown = book.lookup(b"T1", SELLER, BUYER, &mut findings);
    assert!(rt; unknown == Err(Refusal::UnknownTrade));
    let bad = book.lookup(b"T1", b"195", SELLER, &mut findings);
    assert!(rt; bad == Err(Refusal::BadField(Tag::ReportingCounterparty)));
    assert!(rt; findings == [Finding::Differs; PLACES]);
    let shown = book.lookup(b"T1", BUYER, SELLER, &mut findings);
    assert!(rt; shown == Ok(State::Wait) && findings == [Finding::NotCompared; PLACES]);
    Ok(())
}
