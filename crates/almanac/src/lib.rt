// What the calendar tells of a day, as it is printed.
#![tactic(auto)]

pub mod day_facts;
pub mod days;

#[cfg(test)]
mod tests {
    use crate::days::look_up;
    use std::alloc::Global;
    use std::process::Abort;
    use std::test::Fail;

    fn is_told(rt: &impl Abort, heap: Global, text: &[u8], told: &str) -> Result<(), Fail> {
        let printed = match look_up(text) {
            Ok(facts) => format!(in heap; "{facts}")?,
            Err(refusal) => format!(in heap; "{refusal}")?,
        };
        assert!(rt; printed.as_str() == told);
        Ok(())
    }

    // Over Easter, over the New Year, over 1 May, and at the ends of the calendar.
    #[test]
    fn days_are_told(rt: HostRuntime) -> Result<(), Fail> {
        let heap = rt.alloc();
        let told: [(&[u8], &str); 13] = [
            (
                b"2020-04-09",
                "2020-04-09 business next 2020-04-14 second 2020-04-15",
            ),
            (
                b"2020-04-10",
                "2020-04-10 closed next 2020-04-14 second 2020-04-15",
            ),
            (
                b"2020-04-12",
                "2020-04-12 closed next 2020-04-14 second 2020-04-15",
            ),
            (
                b"2020-04-13",
                "2020-04-13 closed next 2020-04-14 second 2020-04-15",
            ),
            (
                b"2020-12-24",
                "2020-12-24 business next 2020-12-28 second 2020-12-29",
            ),
            (
                b"2020-12-31",
                "2020-12-31 business next 2021-01-04 second 2021-01-05",
            ),
            (
                b"2020-04-30",
                "2020-04-30 business next 2020-05-04 second 2020-05-05",
            ),
            (
                b"2008-03-20",
                "2008-03-20 business next 2008-03-25 second 2008-03-26",
            ),
            (
                b"2038-04-22",
                "2038-04-22 business next 2038-04-27 second 2038-04-28",
            ),
            (
                b"2024-02-29",
                "2024-02-29 business next 2024-03-01 second 2024-03-04",
            ),
            (
                b"2000-01-01",
                "2000-01-01 closed next 2000-01-03 second 2000-01-04",
            ),
            (
                b"2099-12-30",
                "2099-12-30 business next 2099-12-31 second never",
            ),
            (b"2099-12-31", "2099-12-31 business next never second never"),
        ];
        for (text, words) in told {
            is_told(&rt, heap, text, words)?;
        }
        Ok(())
    }

    #[test]
    fn texts_that_name_no_day_are_refused(rt: HostRuntime) -> Result<(), Fail> {
        let heap = rt.alloc();
        let texts: [&[u8]; 6] = [
            b"2023-02-29",
            b"2100-01-01",
            b"1999-12-31",
            b"2020-4-9",
            b"2020-04-09T",
            b"2020/04/09",
        ];
        for text in texts {
            is_told(&rt, heap, text, "refused 3 bad field tag 8")?;
        }
        Ok(())
    }
}
