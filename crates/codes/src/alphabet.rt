// Alphabets of coded texts.
ghost use Rattle.std.specs.Prelude.{◌≡◌};
ghost use Rattle.codes.specs.Alphabets.{Letters};
ghost use Rattle.codes.specs.Values.{capitals, capitals_and_digits, printable, trade_id_bytes};

// The bytes that a text may have, and those that may stand first and last.
pub trait Alphabet {
    ghost letters: { Letters };

    fn has(byte: u8) -> bool
        ensures { result ≡ letters.has byte };

    // No default: a default body is proved for every alphabet, and not in all of them are the ends all the bytes.
    fn may_end(byte: u8) -> bool
        ensures { result ≡ letters.ends byte };
}

// The bytes A to Z.
pub struct Capitals;

impl Alphabet for Capitals {
    ghost letters = { capitals };

    fn has(byte: u8) -> bool {
        byte.is_ascii_uppercase()
    }

    fn may_end(byte: u8) -> bool {
        Self::has(byte)
    }
}

// The bytes A to Z and 0 to 9.
pub struct CapitalsAndDigits;

impl Alphabet for CapitalsAndDigits {
    ghost letters = { capitals_and_digits };

    fn has(byte: u8) -> bool {
        matches!(byte, b'0'..=b'9' | b'A'..=b'Z')
    }

    fn may_end(byte: u8) -> bool {
        Self::has(byte)
    }
}

// Whether a byte prints: those from the blank to '~' do.
fn prints(byte: u8) -> bool
    ensures { result ≡ printable.has byte }
{
    matches!(byte, b' '..=b'~')
}

// What names a product: the bytes that print.
pub struct ProductBytes;

impl Alphabet for ProductBytes {
    ghost letters = { printable };

    fn has(byte: u8) -> bool {
        prints(byte)
    }

    fn may_end(byte: u8) -> bool {
        prints(byte)
    }
}

// What names an underlying: the same bytes, as a type of its own, so that neither text is taken for the other.
pub struct UnderlyingBytes;

impl Alphabet for UnderlyingBytes {
    ghost letters = { printable };

    fn has(byte: u8) -> bool {
        prints(byte)
    }

    fn may_end(byte: u8) -> bool {
        prints(byte)
    }
}

// Letters of either case, digits and `.` `-` `_` `:`. The first and the last byte are a letter or a digit.
pub struct TradeIdBytes;

impl Alphabet for TradeIdBytes {
    ghost letters = { trade_id_bytes };

    fn has(byte: u8) -> bool {
        Self::may_end(byte) || matches!(byte, b'.' | b'-' | b'_' | b':')
    }

    fn may_end(byte: u8) -> bool {
        byte.is_ascii_alphanumeric()
    }
}
