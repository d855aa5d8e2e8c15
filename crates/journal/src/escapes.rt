// Escapes in words, read and written.
ghost use Rattle.std.specs.Prelude.{◌≡◌, ◌<◌, ◌++◌, length, alloc_error, IfSome, IfOk, IfErr, Some, None, string_bytes, MatchOption, OnOk};
ghost use Rattle.journal.specs.Escapes.{EscapesAreSafe, before, decoded, escaped, escaped_byte, hex_digit, hex_value, plain};
ghost use Rattle.journal.specs.Errors.{IfNoBytes, decode_error_text, error_text};
ghost use Rattle.journal.specs.declared.escapes.WordError.TheVariants.{OutOfMemory};
ghost use Rattle.journal.specs.declared.escapes.DecodeError.TheVariants.{OutOfMemory as DecodeOutOfMemory};

use std::alloc::{AllocError, AllocFailed, Global};
use std::error::Error;
use std::fmt;

// Why a word was not decoded.
#[derive(Debug, Drop)]
pub enum WordError {
    // the word, as it may be printed
    BadEscape(String),
    OutOfMemory(AllocError),
}

impl From<AllocError> for WordError {
    ghost from_gives = { λ _ e. e ≡ OutOfMemory alloc_error };

    fn from(error: AllocError) -> WordError {
        WordError::OutOfMemory(error)
    }
}

impl<T: Drop> From<AllocFailed<T>> for WordError {
    ghost from_gives = { λ _ e. e ≡ OutOfMemory alloc_error };

    fn from(failed: AllocFailed<T>) -> WordError {
        WordError::OutOfMemory(AllocError::from(failed))
    }
}

impl fmt::Display for WordError {
    ghost output = { λ e. Some (error_text e) };

    fn fmt<W: fmt::Write>(&self, f: &mut fmt::Formatter<W>) -> fmt::Result {
        match self {
            WordError::BadEscape(word) => write!(f, "bad escape in {word}"),
            WordError::OutOfMemory(_) => write!(f, "out of memory"),
        }
    }
}

impl Error for WordError {}

// Why the bytes of a word were not had. A bad escape is told by itself, so that it wants no memory.
#[derive(Debug, Drop)]
pub enum DecodeError {
    BadEscape,
    OutOfMemory(AllocError),
}

impl From<AllocError> for DecodeError {
    ghost from_gives = { λ _ e. e ≡ DecodeOutOfMemory alloc_error };

    fn from(error: AllocError) -> DecodeError {
        DecodeError::OutOfMemory(error)
    }
}

impl<T: Drop> From<AllocFailed<T>> for DecodeError {
    ghost from_gives = { λ _ e. e ≡ DecodeOutOfMemory alloc_error };

    fn from(failed: AllocFailed<T>) -> DecodeError {
        DecodeError::OutOfMemory(AllocError::from(failed))
    }
}

impl fmt::Display for DecodeError {
    ghost output = { λ e. Some (decode_error_text e) };

    fn fmt<W: fmt::Write>(&self, f: &mut fmt::Formatter<W>) -> fmt::Result {
        match self {
            DecodeError::BadEscape => write!(f, "bad escape"),
            DecodeError::OutOfMemory(_) => write!(f, "out of memory"),
        }
    }
}

impl Error for DecodeError {}

// The value of a hexadecimal digit, in capitals or not.
pub fn hex_value(digit: u8) -> Option<u8>
    ensures value { result ≡ hex_value digit }
    ensures bound { IfSome result (λ v. v < 16) }
{
    match digit {
        b'0'..=b'9' => Some(digit - b'0'),
        // `to_digit` takes half as long again: it tries the letters from G on too
        _ if digit.is_ascii_hexdigit() => Some(digit.to_ascii_lowercase() - b'a' + 10),
        _ => None,
    }
}

// The byte that the front of a word stands for, and what follows it; nothing where an escape is bad.
fn first_byte(word: &[u8]) -> Option<(u8, &[u8])>
    requires { 0 < length word.now }
    ensures { MatchOption result (decoded word.now ≡ None) (λ p. (decoded word.now ≡ before (Some p.0) (decoded p.1.now)) × (length p.1.now < length word.now)) }
{
    match word {
        [b'%', high, low, rest @ ..] => {
            let high = hex_value(*high)?;
            let low = hex_value(*low)?;
            Some((high * 16 + low, rest))
        }
        [byte, rest @ ..] if *byte != b'%' => Some((*byte, rest)),
        _ => None,
    }
}

// The bytes that a word stands for.
#[tactic(auto, using(crate::proofs::Inverse::behind_one))]
pub fn decode(alloc: Global, word: &[u8]) -> Result<Vec<u8>, DecodeError>
    ensures bytes { IfOk result (λ bytes. decoded word.now ≡ Some bytes.items) }
    ensures bad { IfErr result (λ e. IfNoBytes e (decoded word.now ≡ None)) }
{
    let mut bytes = Vec::new(alloc);
    let mut rest = word;
    // by what is left and no iterator of bytes: a bad escape ends it, and would have to be an item
    while !rest.is_empty() {
        let Some((byte, after)) = first_byte(rest) else {
            return Err(DecodeError::BadEscape);
        };
        bytes.push(byte)?;
        rest = after;
    }
    Ok(bytes)
}

fn is_plain(byte: u8) -> bool
    ensures { result ≡ plain byte }
{
    byte.is_ascii_graphic() && byte != b'%'
}

// The digit of a value below 16, in capitals.
fn hex_digit(value: u8) -> char
    requires { value < 16 }
    ensures value { result ≡ hex_digit value }
    ensures ascii { result < 128 }
{
    char::from_digit(u32::from(value), 16)
        .unwrap()
        .to_ascii_uppercase()
}

// Digit by digit, since a formatted number takes several times as long.
#[tactic(auto, using(crate::proofs::Inverse::three_pushed))]
fn push_escaped(out: &mut String, byte: u8) -> Result<(), AllocError>
    ensures { OnOk result (string_bytes out.new ≡ string_bytes out.old ++ escaped_byte byte) }
{
    if is_plain(byte) {
        return out.push(char::from(byte));
    }
    out.push('%')?;
    out.push(hex_digit(byte / 16))?;
    out.push(hex_digit(byte % 16))
}

// Bytes as an answer prints them, so that none breaks its line.
#[tactic(auto, using(crate::proofs::Inverse::escaped_more))]
pub fn escape(alloc: Global, bytes: &[u8]) -> Result<String, AllocError>
    ensures { IfOk result (λ s. string_bytes s ≡ escaped bytes.now) }
{
    let mut out = String::new(alloc);
    for byte in bytes {
        push_escaped(&mut out, *byte)?;
    }
    Ok(out)
}

// What is printed holds no blank and no line feed, and is read as the same bytes again.
pub fn escapes_are_safe()
    ensures { EscapesAreSafe }
{}
