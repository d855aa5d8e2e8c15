// A trade that both sides report on one day.
use crate::host::{Lists, Received, run_day};
use crate::sides::{
    BUYER, SELLER, buyer_reports, countries, day, is_unused, parties, seller_reports,
    unused_notice, write_slip,
};
use book::book::Book;
use built_sheets::kdpw::KdpwSheet;
use rows::key::TradeKey;
use rows::notice::Notice;
use rows::row::Row;
use rows::state::State;
use sheets::comparing::PLACES;
use sheets::finding::Finding;
use std::test::Fail;

// All of the fifteen compared fields match but the product, which neither side names by an ISIN.
fn matching() -> [Finding; PLACES] {
    let mut findings = [Finding::NotCompared; PLACES];
    for place in 0..15 {
        if place != 1 {
            findings[place] = Finding::Matches;
        }
    }
    findings
}

// Whether a notice tells this side that its report matches the other's.
fn tells(notice: &Notice, reporter: &[u8], other: &[u8]) -> bool {
    TradeKey::read(b"T1", reporter, other) == Ok(notice.key)
        && notice.state == State::Mach
        && notice.findings == matching()
}

#[test]
fn both_sides_hear_of_their_pair(rt: HostRuntime) -> Result<(), Fail> {
    let (parties, countries) = (parties()?, countries()?);
    let (second_day, third_day) = (day(b"2020-08-04")?, day(b"2020-08-05")?);
    let mut rows = [Row::blank(); 8];
    let mut notices = [unused_notice()?; 8];
    let mut book = Book::open(day(b"2020-08-03")?, &mut rows);
    assert!(rt; buyer_reports(&mut book)? == Ok(()) && seller_reports(&mut book)? == Ok(()));
    let first_close = book.close(&KdpwSheet, &parties, &countries, &mut notices);
    assert!(rt; first_close == Ok((0, 0, second_day)));
    assert!(rt; notices.iter().all(is_unused));
    let second_close = book.close(&KdpwSheet, &parties, &countries, &mut notices);
    assert!(rt; second_close == Ok((2, 1, third_day)));
    assert!(rt; tells(&notices[0], BUYER, SELLER) && tells(&notices[1], SELLER, BUYER));
    assert!(rt; notices[2..].iter().all(is_unused));
    assert!(rt; book.day() == third_day && book.rows().len() == 2);
    let mut findings = [Finding::Differs; PLACES];
    let shown = book.lookup(b"T1", SELLER, BUYER, &mut findings);
    assert!(rt; shown == Ok(State::Mach) && findings == matching());
    Ok(())
}

#[test]
fn a_host_runs_a_day(rt: HostRuntime) -> Result<(), Fail> {
    let (parties, countries) = (parties()?, countries()?);
    let (mut buyer, mut seller) = ([0; 256], [0; 256]);
    let (Some(first), Some(second)) = (
        write_slip(BUYER, SELLER, b"B", &mut buyer),
        write_slip(SELLER, BUYER, b"S", &mut seller),
    ) else {
        return Err(Fail::new("not written"));
    };
    let received = Received {
        first: buyer.get(..first).unwrap_or(b""),
        second: seller.get(..second).unwrap_or(b""),
        trade: b"T1",
        reporter: BUYER,
        other: SELLER,
    };
    let lists = Lists {
        parties: &parties,
        countries: &countries,
    };
    let mut rows = [Row::blank(); 2];
    let mut notices = [unused_notice()?; 2];
    let mut findings = [Finding::Differs; PLACES];
    let answers = run_day(
        &mut rows,
        day(b"2020-08-03")?,
        received,
        &KdpwSheet,
        lists,
        &mut notices,
        &mut findings,
    );
    assert!(rt; answers.first == Ok(()) && answers.second == Ok(()));
    assert!(rt; answers.close == Ok((0, 0, day(b"2020-08-04")?)));
    assert!(rt; answers.lookup == Ok(State::Wait) && findings == [Finding::NotCompared; PLACES]);
    Ok(())
}
