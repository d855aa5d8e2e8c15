// Coded texts: values that keep their rule from the moment they are read.
#![tactic(auto)]

pub mod alphabet;
pub mod code;
pub mod host;

// Texts that spell a value, and texts that spell none.
#[cfg(test)]
mod tests {
    use crate::code::kinds::kinds_of;

    #[test]
    fn texts_at_the_limits(rt: HostRuntime) {
        assert!(rt; kinds_of(b"A234567890123456789012345678901234567890123456.-_:z9").trade_id);
        assert!(rt; !kinds_of(b"A234567890123456789012345678901234567890123456.-_:z90").trade_id);
        assert!(rt; kinds_of(b"00000000000000000195").lei);
        assert!(rt; !kinds_of(b"0000000000000000195").lei);
        assert!(rt; kinds_of(b"KLIENT00000000000001").client_code);
        assert!(rt; !kinds_of(b"KLIENT000000000000001").client_code);
        assert!(rt; !kinds_of(b"").client_code);
        assert!(rt; kinds_of(b"PL").country);
        assert!(rt; kinds_of(b"PLN").currency);
        assert!(rt; kinds_of(b"360T").venue);
        let longest = b" ~34567890123456789012345678901234567890123456789012345678901234";
        assert!(rt; kinds_of(longest).product_id);
    }

    #[test]
    fn bytes_outside_the_alphabet(rt: HostRuntime) {
        assert!(rt; !kinds_of(b".A").trade_id);
        assert!(rt; !kinds_of(b"A:").trade_id);
        assert!(rt; !kinds_of(b"A B").trade_id);
        assert!(rt; !kinds_of(b"A\0").trade_id);
        assert!(rt; !kinds_of(b"0000000000000000019x").lei);
        assert!(rt; !kinds_of(b"Pl").country);
        assert!(rt; !kinds_of(b"P1").country);
        assert!(rt; !kinds_of(b"A\x1fB").product_id);
        assert!(rt; !kinds_of(b"A\x7fB").product_id);
    }
}
