// The slip: the bytes as which a report is sent.
#![tactic(auto)]

mod check;
pub mod draft;
pub mod field;
pub mod slip;

#[cfg(test)]
mod tests {
    use crate::draft::Draft;
    use crate::slip::Slip;
    use refusals::tag::Tag;
    use std::alloc::{AllocError, Global};
    use std::test::Fail;

    // An action and a price.
    const PRICED: [u8; 14] = [2, 0, 5, 6, 18, 0, 1, 0, 5, b'N', b'1', b'2', b'.', b'5'];

    // Fields put one after the other, and whether each is taken.
    const PUT: [(Tag, &[u8], bool); 6] = [
        (Tag::Action, b"", false),
        (Tag::Action, b"N", true),
        (Tag::Action, b"N", false),
        (Tag::TradeId, b"A", false),
        (Tag::Price, b"12.5", true),
        (Tag::Venue, b"X", false),
    ];

    // Fields with the tags from 1 on, each with one byte of text, its tag.
    fn ladder(heap: Global, count: u8) -> Result<Vec<u8>, AllocError> {
        let mut bytes = vec![in heap; count, 0, count]?;
        for tag in 1..=count {
            bytes.push(tag)?;
        }
        for end in 1..=count {
            bytes.push(0)?;
            bytes.push(end)?;
        }
        for byte in 1..=count {
            bytes.push(byte)?;
        }
        Ok(bytes)
    }

    // One field with a text of zeros.
    fn long(heap: Global, size: u16) -> Result<Vec<u8>, AllocError> {
        let mut bytes = vec![in heap; 1]?;
        bytes.extend_from_slice(&size.to_be_bytes())?;
        bytes.push(17)?;
        bytes.extend_from_slice(&size.to_be_bytes())?;
        for _ in 0..size {
            bytes.push(0)?;
        }
        Ok(bytes)
    }

    #[test]
    fn torn_slips_are_not_read(rt: HostRuntime) -> Result<(), Fail> {
        let torn: [(&str, &[u8]); 20] = [
            ("nothing", &[]),
            ("one byte", &[0]),
            ("two bytes", &[0, 0]),
            ("a byte too many, no field", &[0, 0, 0, 7]),
            ("a byte too few", &[1, 0, 1, 8, 0, 1]),
            ("a byte too many", &[1, 0, 1, 8, 0, 1, 7, 7]),
            ("tag 0", &[1, 0, 1, 0, 0, 1, 7]),
            ("tag 26", &[1, 0, 1, 26, 0, 1, 7]),
            ("falling tags", &[2, 0, 2, 9, 8, 0, 1, 0, 2, 7, 7]),
            ("equal tags", &[2, 0, 2, 8, 8, 0, 1, 0, 2, 7, 7]),
            ("falling ends", &[2, 0, 2, 8, 9, 0, 2, 0, 1, 7, 7]),
            ("equal ends", &[2, 0, 2, 8, 9, 0, 2, 0, 2, 7, 7]),
            ("first end 0", &[2, 0, 2, 8, 9, 0, 0, 0, 2, 7, 7]),
            ("last end short", &[2, 0, 3, 8, 9, 0, 1, 0, 2, 7, 7, 7]),
            ("last end too far", &[2, 0, 2, 8, 9, 0, 1, 0, 3, 7, 7]),
            ("size too small", &[1, 0, 0, 8, 0, 1, 7]),
            ("size with bytes exchanged", &[1, 1, 0, 8, 0, 1, 7]),
            ("end with bytes exchanged", &[1, 0, 1, 8, 1, 0, 7]),
            ("a text and no field", &[0, 0, 1, 7]),
            ("fields and no text", &[1, 0, 0, 8, 0, 0]),
        ];
        for (why, bytes) in torn {
            let refused = Slip::read(bytes).is_err();
            assert!(rt; refused, "{why}");
        }
        Ok(())
    }

    #[test]
    fn slips_are_read_up_to_their_limits(rt: HostRuntime) -> Result<(), Fail> {
        let heap = rt.alloc();
        for (count, is_read) in [(0, true), (1, true), (25, true), (26, false)] {
            let bytes = ladder(heap, count)?;
            let read = Slip::read(&bytes).is_ok();
            assert!(rt; read == is_read, "{count} fields");
        }
        for (size, is_read) in [(0, false), (1, true), (512, true), (513, false)] {
            let bytes = long(heap, size)?;
            let read = Slip::read(&bytes).is_ok();
            assert!(rt; read == is_read, "{size} bytes");
        }
        Ok(())
    }

    #[test]
    fn fields_are_told_with_their_places(rt: HostRuntime) -> Result<(), Fail> {
        let Ok(slip) = Slip::read(&PRICED) else {
            return Err(Fail::new("not read"));
        };
        let told: [(Tag, usize, &[u8]); 2] = [(Tag::Action, 0, b"N"), (Tag::Price, 1, b"12.5")];
        assert!(rt; slip.fields().count() == 2);
        for (field, (tag, place, text)) in slip.fields().zip(told) {
            let part = field.part();
            assert!(rt; field.tag() == tag && part.place == place && part.text == text);
        }
        let price = slip
            .field(Tag::Price)
            .is_some_and(|field| field.part().place == 1);
        let level = slip.field(Tag::Level).is_none();
        assert!(rt; price && level);
        Ok(())
    }

    #[test]
    fn every_tag_is_told(rt: HostRuntime) -> Result<(), Fail> {
        let bytes = ladder(rt.alloc(), 25)?;
        let Ok(slip) = Slip::read(&bytes) else {
            return Err(Fail::new("not read"));
        };
        assert!(rt; slip.fields().count() == 25);
        for (number, field) in (1..=25u8).zip(slip.fields()) {
            let part = field.part();
            assert!(rt;
                u8::from(field.tag()) == number && part.text == [number].as_slice(),
                "tag {number}"
            );
        }
        Ok(())
    }

    #[test]
    fn a_slip_may_have_no_fields(rt: HostRuntime) -> Result<(), Fail> {
        let Ok(slip) = Slip::read(&[0, 0, 0]) else {
            return Err(Fail::new("not read"));
        };
        assert!(rt; slip.fields().count() == 0);
        Ok(())
    }

    #[test]
    fn a_slip_is_written_as_it_was_read(rt: HostRuntime) -> Result<(), Fail> {
        let Ok(slip) = Slip::read(&PRICED) else {
            return Err(Fail::new("not read"));
        };
        let mut out = [7; 16];
        let len = slip.write(&mut out);
        assert!(rt; len == Some(14) && out.starts_with(&PRICED) && out.ends_with(&[7, 7]));
        let mut short = [7; 13];
        let len = slip.write(&mut short);
        assert!(rt; len.is_none() && short == [7; 13]);
        Ok(())
    }

    #[test]
    fn a_draft_takes_fields_by_rising_tags(rt: HostRuntime) -> Result<(), Fail> {
        let mut draft = Draft::new();
        for (tag, text, is_taken) in &PUT {
            let taken = draft.push(*tag, text).is_ok();
            assert!(rt; taken == *is_taken, "tag {tag}");
        }
        let mut out = [0; 14];
        let len = draft.slip().write(&mut out);
        assert!(rt; len == Some(14) && out == PRICED);
        Ok(())
    }

    #[test]
    fn a_draft_has_room_for_512_bytes(rt: HostRuntime) -> Result<(), Fail> {
        let long = [b'X'; 512];
        let mut draft = Draft::new();
        let first = draft.push(Tag::TradeId, b"A").is_ok();
        let over = draft.push(Tag::Venue, &long).is_err();
        let full = draft.push(Tag::Venue, &long[1..]).is_ok();
        let more = draft.push(Tag::Price, b"1").is_err();
        assert!(rt; first && over && full && more);
        assert!(rt; draft.slip().field_count() == 2);
        Ok(())
    }
}
