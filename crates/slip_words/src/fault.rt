// What keeps words from spelling a slip.
ghost use Rattle.std.specs.Prelude.{◌≡◌, alloc_error, Some};
ghost use Rattle.slip_words.specs.Faults.{error_text};
ghost use Rattle.slip_words.specs.declared.fault.SlipWordError.TheVariants.{OutOfMemory};

use std::alloc::{AllocError, AllocFailed};
use std::error::Error;
use std::fmt;

// Why no slip was made: the words spell none, or memory ran out. A word is kept as it may be printed.
#[derive(Debug, Drop)]
pub enum SlipWordError {
    NoWords,
    BadField(String),
    BadHex(String),
    // how many fields were given
    TooManyFields(usize),
    // texts that two bytes cannot count
    TooLong,
    OutOfMemory(AllocError),
}

impl From<AllocError> for SlipWordError {
    ghost from_gives = { λ _ e. e ≡ OutOfMemory alloc_error };

    fn from(error: AllocError) -> SlipWordError {
        SlipWordError::OutOfMemory(error)
    }
}

impl<T: Drop> From<AllocFailed<T>> for SlipWordError {
    ghost from_gives = { λ _ e. e ≡ OutOfMemory alloc_error };

    fn from(failed: AllocFailed<T>) -> SlipWordError {
        SlipWordError::OutOfMemory(AllocError::from(failed))
    }
}

impl fmt::Display for SlipWordError {
    ghost output = { λ e. Some (error_text e) };

    fn fmt<W: fmt::Write>(&self, f: &mut fmt::Formatter<W>) -> fmt::Result {
        match self {
            SlipWordError::NoWords => write!(f, "no word for a slip"),
            SlipWordError::BadField(word) => write!(f, "no TAG=TEXT in {word}"),
            SlipWordError::BadHex(word) => write!(f, "bad hexadecimal in {word}"),
            SlipWordError::TooManyFields(given) => write!(f, "255 fields at most, not {given}"),
            SlipWordError::TooLong => write!(f, "65535 bytes of text at most"),
            SlipWordError::OutOfMemory(_) => write!(f, "out of memory"),
        }
    }
}

impl Error for SlipWordError {}
