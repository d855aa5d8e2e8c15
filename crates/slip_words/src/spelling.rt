// Slips by their words.
ghost use Rattle.std.specs.Prelude.{◌≡◌, ◌++◌, codes, IfOk, IfErr, map, vec_items, Some, None};
ghost use Rattle.std.specs.Result.{result_ok};
ghost use Rattle.hex.specs.Hex.{decode_of};
ghost use Rattle.journal.specs.Escapes.{escaped};
ghost use Rattle.slip_words.specs.Faults.{IfNotSpelled, bad_word, error_text, fault_told, no_field_text};
ghost use Rattle.slip_words.specs.Spelled.{fields_spelled, slip_spelled};
ghost use Rattle.slip_words.specs.Tagged.{tagged};

use crate::fault::SlipWordError;
use crate::field::{SpelledField, has_equals_sign, read_field};
use crate::layout::lay_out;
use hex::FromHexError;
use journal::escapes::escape;
use std::alloc::{AllocError, Global};

// The bytes that a word spells, two digits for each.
fn read_hex(alloc: Global, word: &[u8]) -> Result<Vec<u8>, SlipWordError>
    ensures bytes { IfOk result (λ bytes. result_ok (decode_of word.now) ≡ Some bytes.items) }
    ensures fault { IfErr result (λ e. IfNotSpelled e (result_ok (decode_of word.now) ≡ None)) }
    ensures told { IfErr result (λ e. IfNotSpelled e (error_text e ≡ codes "bad hexadecimal in " ++ escaped word.now)) }
{
    match hex::decode(alloc, word) {
        Ok(bytes) => Ok(bytes),
        Err(FromHexError::OutOfMemory) => Err(SlipWordError::OutOfMemory(AllocError)),
        Err(_) => Err(SlipWordError::BadHex(escape(alloc, word)?)),
    }
}

// The fields that words spell, in their order.
fn read_fields(alloc: Global, words: &[Vec<u8>]) -> Result<Vec<SpelledField>, SlipWordError>
    ensures fields { IfOk result (λ fields. fields_spelled (map vec_items words.now) ≡ Some (map tagged fields.items)) }
    ensures fault { IfErr result (λ e. IfNotSpelled e (fields_spelled (map vec_items words.now) ≡ None)) }
    ensures told { IfErr result (λ e. IfNotSpelled e (error_text e ≡ no_field_text (bad_word (map vec_items words.now)))) }
{
    let mut fields = Vec::new(alloc);
    for word in words {
        let Some(field) = read_field(word.as_slice()) else {
            return Err(SlipWordError::BadField(escape(alloc, word.as_slice())?));
        };
        fields.push(field)?;
    }
    Ok(fields)
}

// The bytes of the slip that words spell, torn or not: a single word with no equals sign is hexadecimal, and other words
// are fields.
pub fn spell_slip(alloc: Global, words: &[Vec<u8>]) -> Result<Vec<u8>, SlipWordError>
    ensures bytes { IfOk result (λ bytes. slip_spelled (map vec_items words.now) ≡ Some bytes.items) }
    ensures fault { IfErr result (λ e. IfNotSpelled e (slip_spelled (map vec_items words.now) ≡ None)) }
    ensures told { IfErr result (λ e. IfNotSpelled e (error_text e ≡ fault_told (map vec_items words.now))) }
{
    match words {
        [] => Err(SlipWordError::NoWords),
        [word] if !has_equals_sign(word.as_slice()) => read_hex(alloc, word.as_slice()),
        _ => {
            let fields = read_fields(alloc, words)?;
            lay_out(alloc, fields.as_slice())
        }
    }
}

#[cfg(test)]
mod tests {
    use super::*;
    use std::process::Abort;
    use std::test::Fail;

    const SPELLED: [(&[&[u8]], &[u8]); 10] = [
        (
            &[b"6=NEWT", b"1=TR"],
            b"\x02\x00\x06\x06\x01\x00\x04\x00\x06NEWTTR",
        ),
        (
            &[b"1=a", b"1=", b"1=b"],
            b"\x03\x00\x02\x01\x01\x01\x00\x01\x00\x01\x00\x02ab",
        ),
        (&[b"6=N=1"], b"\x01\x00\x03\x06\x00\x03N=1"),
        (&[b"07=T"], b"\x01\x00\x01\x07\x00\x01T"),
        (&[b"0="], b"\x01\x00\x00\x00\x00\x00"),
        (
            &[b"0000000000000000000000000000000000000000255=\xff"],
            b"\x01\x00\x01\xff\x00\x01\xff",
        ),
        (&[b"01000106000141"], b"\x01\x00\x01\x06\x00\x01A"),
        (&[b"Ff0a"], b"\xff\x0a"),
        (&[b"16"], b"\x16"),
        (&[b""], b""),
    ];

    const REFUSED: [(&[&[u8]], &str); 10] = [
        (&[], "no word for a slip"),
        (&[b"1=a", b"41"], "no TAG=TEXT in 41"),
        (&[b"41", b"1=a"], "no TAG=TEXT in 41"),
        (&[b"256=a"], "no TAG=TEXT in 256=a"),
        (
            &[b"340282366920938463463374607431768211457=a"],
            "no TAG=TEXT in 340282366920938463463374607431768211457=a",
        ),
        (&[b"=a"], "no TAG=TEXT in =a"),
        (&[b"+1=a"], "no TAG=TEXT in +1=a"),
        (&[b"1=a", b" 2=%"], "no TAG=TEXT in %202=%25"),
        (&[b"414"], "bad hexadecimal in 414"),
        (&[b"4g"], "bad hexadecimal in 4g"),
    ];

    fn owned(alloc: Global, words: &[&[u8]]) -> Result<Vec<Vec<u8>>, AllocError> {
        let mut all = Vec::new(alloc);
        for word in words {
            all.push(Vec::from_slice(alloc, word)?)?;
        }
        Ok(all)
    }

    fn repeated(alloc: Global, word: &[u8], count: usize) -> Result<Vec<Vec<u8>>, AllocError> {
        let mut all = Vec::new(alloc);
        for _ in 0..count {
            all.push(Vec::from_slice(alloc, word)?)?;
        }
        Ok(all)
    }

    // a field under tag 1 with so many bytes of text
    fn long_field(alloc: Global, size: usize) -> Result<Vec<u8>, AllocError> {
        let mut word = Vec::from_slice(alloc, b"1=")?;
        for _ in 0..size {
            word.push(b'x')?;
        }
        Ok(word)
    }

    fn is_spelled(
        rt: &impl Abort,
        alloc: Global,
        words: &[Vec<u8>],
        bytes: &[u8],
    ) -> Result<(), Fail> {
        let Ok(slip) = spell_slip(alloc, words) else {
            return Err(Fail::new("not spelled"));
        };
        assert!(rt; slip.as_slice() == bytes);
        Ok(())
    }

    fn is_refused(
        rt: &impl Abort,
        alloc: Global,
        words: &[Vec<u8>],
        text: &str,
    ) -> Result<(), Fail> {
        let Err(error) = spell_slip(alloc, words) else {
            return Err(Fail::new("spelled"));
        };
        let told = error.to_string(alloc)?;
        assert!(rt; told.as_str() == text);
        Ok(())
    }

    #[test]
    fn slips_are_spelled(rt: HostRuntime) -> Result<(), Fail> {
        let alloc = rt.alloc();
        for (words, bytes) in &SPELLED {
            is_spelled(&rt, alloc, owned(alloc, words)?.as_slice(), bytes)?;
        }
        Ok(())
    }

    #[test]
    fn other_words_are_refused(rt: HostRuntime) -> Result<(), Fail> {
        let alloc = rt.alloc();
        for (words, text) in &REFUSED {
            is_refused(&rt, alloc, owned(alloc, words)?.as_slice(), text)?;
        }
        Ok(())
    }

    #[test]
    fn fields_are_counted(rt: HostRuntime) -> Result<(), Fail> {
        let alloc = rt.alloc();
        let most = repeated(alloc, b"200=", 255)?;
        let slip = spell_slip(alloc, most.as_slice())?;
        assert_eq!(rt; slip.len(), 3 + 3 * 255);
        assert!(rt; slip.as_slice().starts_with(b"\xff\x00\x00\xc8\xc8"));
        let more = repeated(alloc, b"200=", 256)?;
        is_refused(&rt, alloc, more.as_slice(), "255 fields at most, not 256")
    }

    #[test]
    fn text_is_counted(rt: HostRuntime) -> Result<(), Fail> {
        let alloc = rt.alloc();
        let slip = spell_slip(alloc, &[long_field(alloc, 65_535)?])?;
        assert_eq!(rt; slip.len(), 6 + 65_535);
        assert!(rt; slip.as_slice().starts_with(b"\x01\xff\xff\x01\xff\xffx"));
        let told = "65535 bytes of text at most";
        is_refused(&rt, alloc, &[long_field(alloc, 65_536)?], told)?;
        let halves = [long_field(alloc, 32_768)?, long_field(alloc, 32_768)?];
        is_refused(&rt, alloc, &halves, told)
    }
}
