// The ordered table at work: rows of a sample kind, parties and countries.
#![tactic(auto)]

pub mod sample;
pub mod uses;

#[cfg(test)]
mod tests {
    use crate::sample::{Sample, SampleKey};
    use crate::uses::{enter_front, enter_sample_at};
    use codes::code::read::NotACode;
    use codes::code::{ClientCode, Country, Lei, TradeId};
    use refusals::refusal::Refusal;
    use std::test::Fail;
    use table::container::Table;
    use table::insertion::NotEntered;

    fn sample(trade: &[u8], other: &[u8], mark: u32) -> Result<Sample, NotACode> {
        let key = SampleKey {
            trade: TradeId::read(trade)?,
            reporting: Lei::read(b"259400LUPUA1BSPB4X83")?,
            other: ClientCode::read(other)?,
        };
        Ok(Sample {
            key,
            done: mark == 0,
            mark,
        })
    }

    #[test]
    fn rows_enter_in_order_and_close_up(rt: HostRuntime) -> Result<(), Fail> {
        let blank = sample(b"0", b"0", 0)?;
        let mut slots = [blank; 3];
        let mut table = Table::empty(&mut slots[..]);
        assert_eq!(rt; table.insert(sample(b"T2", b"B", 1)?), Ok(0));
        let row = sample(b"T2", b"AB", 2)?;
        assert!(rt; table.find(&row.key) == Err(0));
        assert_eq!(rt; table.insert(row), Ok(0));
        assert_eq!(rt;
            table.insert(sample(b"T2", b"B", 3)?),
            Err(NotEntered::Known(1))
        );
        assert_eq!(rt; table.insert(sample(b"T10", b"C", 0)?), Ok(0));
        assert_eq!(rt;
            table.insert(sample(b"T3", b"C", 4)?),
            Err(NotEntered::Full)
        );
        table.close_up(blank);
        assert!(rt; table.used == 2);
        assert!(rt; table.find(&sample(b"T2", b"B", 0)?.key) == Ok(1));
        assert!(rt; table.find(&sample(b"T3", b"B", 0)?.key) == Err(2));
        assert!(rt; slots[0].mark == 2 && slots[1].mark == 1 && slots[2].mark == 0);
        Ok(())
    }

    #[test]
    fn a_row_enters_at_a_place_found_before(rt: HostRuntime) -> Result<(), Fail> {
        let row = sample(b"T2", b"B", 1)?;
        let mut slots = [row; 2];
        assert_eq!(rt;
            enter_sample_at(&mut slots[..], 1, 0, sample(b"T2", b"AB", 2)?),
            Ok(())
        );
        assert_eq!(rt;
            enter_sample_at(&mut slots[..], 2, 3, row),
            Err(NotEntered::Full)
        );
        assert!(rt; slots[0].mark == 2 && slots[1].mark == 1);
        Ok(())
    }

    #[test]
    fn rows_out_of_order_make_no_table(rt: HostRuntime) -> Result<(), Fail> {
        let rows = [sample(b"T2", b"A", 1)?, sample(b"T1", b"A", 2)?];
        let taken = Table::new(&rows[..], 1).is_some();
        let refused = Table::new(&rows[..], 2).is_none();
        assert!(rt; taken && refused);
        Ok(())
    }

    #[test]
    fn the_front_of_a_slice_is_a_table(rt: HostRuntime) -> Result<(), Fail> {
        let mut slots = [sample(b"0", b"0", 7)?; 3];
        let row = sample(b"T1", b"A", 1)?;
        let next = sample(b"T2", b"A", 2)?;
        let last = sample(b"T3", b"A", 3)?;
        assert_eq!(rt; enter_front(&mut slots[..], 2, 0, next), Ok(0));
        assert_eq!(rt; enter_front(&mut slots[..], 2, 1, row), Ok(0));
        assert_eq!(rt;
            enter_front(&mut slots[..], 2, 2, last),
            Err(NotEntered::Full)
        );
        assert!(rt; slots[0].mark == 1 && slots[1].mark == 2 && slots[2].mark == 7);
        Ok(())
    }

    #[test]
    fn registers_are_in_order(rt: HostRuntime) -> Result<(), Fail> {
        let at = Country::read(b"AT")?;
        let pl = Country::read(b"PL")?;
        let listed = [at, pl];
        let Ok(countries) = Table::register(&listed[..]) else {
            return Err(Fail::new("refused"));
        };
        assert!(rt; countries.find(&pl) == Ok(1));
        let twice = [at, at];
        let refused = Table::register(&twice[..]).is_err();
        assert!(rt; refused);
        Ok(())
    }
}
