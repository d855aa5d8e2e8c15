// Amounts of money, prices and rates: read, written and compared exactly.
#![tactic(auto)]

pub mod amount;

// Texts that are read, as they are written again, and texts that are refused.
#[cfg(test)]
mod tests {
    use crate::amount::Amount;
    use crate::amount::rate::ExchangeRate;
    use std::process::Abort;
    use std::test::Fail;

    // The text that is read from `text` and written in shortest form is `shortest`.
    fn reads_as(rt: &impl Abort, text: &[u8], shortest: &[u8]) -> Result<(), Fail> {
        let Ok(amount) = Amount::read(text) else {
            return Err(Fail::new("refused"));
        };
        let mut buffer = [0u8; 22];
        let Some(len) = amount.write(&mut buffer) else {
            return Err(Fail::new("no room"));
        };
        let written = &buffer[..];
        assert!(rt; len <= written.len());
        assert!(rt; &written[0..len] == shortest);
        Ok(())
    }

    fn is_refused(rt: &impl Abort, text: &[u8]) {
        assert!(rt; Amount::read(text).is_err());
    }

    #[test]
    fn amounts_are_read(rt: HostRuntime) -> Result<(), Fail> {
        reads_as(&rt, b"-0", b"0")?;
        reads_as(&rt, b"-0.00", b"0")?;
        reads_as(&rt, b"99999999999999999999", b"99999999999999999999")?;
        reads_as(&rt, b"-9999999999.9999999999", b"-9999999999.9999999999")?;
        reads_as(&rt, b"0.0000000000000000001", b"0.0000000000000000001")?;
        reads_as(&rt, b"00000000000000000100", b"100")?;
        reads_as(&rt, b"00000000001.500000000", b"1.5")?;
        reads_as(&rt, b"-007.250", b"-7.25")?;
        reads_as(&rt, b"10", b"10")
    }

    #[test]
    fn other_texts_are_refused(rt: HostRuntime) {
        is_refused(&rt, b"000000000000000000100");
        is_refused(&rt, b"0.00000000000000000001");
        is_refused(&rt, b"1E2");
        is_refused(&rt, b".5");
        is_refused(&rt, b"5.");
        is_refused(&rt, b"-");
        is_refused(&rt, b"");
        is_refused(&rt, b"+5");
        is_refused(&rt, b"--5");
        is_refused(&rt, b"1.2.3");
        is_refused(&rt, b"1 2");
        is_refused(&rt, b" 5");
        is_refused(&rt, b" ");
        is_refused(&rt, b"5\xb2");
    }

    #[test]
    fn rates_have_ten_digits(rt: HostRuntime) {
        assert!(rt; ExchangeRate::read(b"4.123456789").is_ok());
        assert!(rt; ExchangeRate::read(b"4.1234567890").is_err());
        assert!(rt; ExchangeRate::read(b"0000000001").is_ok());
        assert!(rt; ExchangeRate::read(b"00000000001").is_err());
    }

    #[test]
    fn a_short_buffer_is_left_alone(rt: HostRuntime) -> Result<(), Fail> {
        let Ok(amount) = Amount::read(b"-1.5") else {
            return Err(Fail::new("refused"));
        };
        let mut short = [7u8; 3];
        assert!(rt; amount.write(&mut short).is_none());
        assert!(rt; short == [7, 7, 7]);
        let mut roomy = [7u8; 6];
        assert!(rt; amount.write(&mut roomy) == Some(4));
        assert!(rt; roomy == [45, 49, 46, 53, 7, 7]);
        Ok(())
    }
}
