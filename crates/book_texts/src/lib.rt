// How the notices, the rows and the lookups of a book are told.
#![tactic(auto)]

pub mod differing;
pub mod key;
pub mod notice;
pub mod row;
pub mod shown;

// A line as it is printed.
#[cfg(test)]
mod tests {
    use crate::notice::list_notices;
    use crate::row::list_rows;
    use business::business_day::BusinessDay;
    use rows::key::TradeKey;
    use rows::notice::Notice;
    use rows::row::Row;
    use rows::standing::Standing;
    use rows::state::State;
    use sheets::comparing::PLACES;
    use sheets::finding::Finding;
    use std::test::Fail;

    // Two fields that differ and have names, and one that has none.
    #[test]
    fn a_notice_is_told(rt: HostRuntime) -> Result<(), Fail> {
        let key = TradeKey::read(b"T1", b"259400LUPUA1BSPB4X83", b"KLIENT7")?;
        let mut findings = [Finding::NotCompared; PLACES];
        findings[8] = Finding::Differs;
        findings[14] = Finding::Differs;
        findings[63] = Finding::Differs;
        let state = State::Err2;
        let told = list_notices(
            rt.alloc(),
            &[Notice {
                key,
                state,
                findings,
            }],
        )?;
        let line =
            "\n  T1 259400LUPUA1BSPB4X83 KLIENT7 ERR2 2222222212222212222222222222222222222222222222222222222222222221 (9 price, 15 exchange rate 1, 64)";
        assert!(rt; told.as_str() == line);
        Ok(())
    }

    // A row with a due day, and one without.
    #[test]
    fn rows_are_told(rt: HostRuntime) -> Result<(), Fail> {
        let mut row = Row::blank();
        row.key = TradeKey::read(b"T1", b"259400LUPUA1BSPB4X83", b"KLIENT7")?;
        row.standing = Standing::Active;
        row.due = Some(BusinessDay::read(b"2020-08-04")?);
        row.state = State::Mach;
        let told = list_rows(rt.alloc(), &[row, Row::blank()])?;
        let lines =
            "2\n  T1 259400LUPUA1BSPB4X83 KLIENT7 active due 2020-08-04 tries 0 MACH\n  0 0 0 withdrawn due never tries 0 GONE";
        assert!(rt; told.as_str() == lines);
        Ok(())
    }
}
