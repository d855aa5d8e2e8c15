// What keeps a line of a journal from being answered.
ghost use Rattle.std.specs.Prelude.{◌≡◌, alloc_error, Some};
ghost use Rattle.verbs.specs.Faults.{fault_of, fault_of_words, fault_text};
ghost use Rattle.verbs.specs.declared.fault.Fault.TheVariants.{OutOfMemory};

use crate::verb::Verb;
use journal::escapes::WordError;
use slip_words::fault::SlipWordError;
use std::alloc::AllocError;
use std::error::Error;
use std::fmt;

// Why a line was not answered: it is no call, or memory ran out. Words of the line are kept as they may be printed.
#[derive(Debug, Drop)]
pub enum Fault {
    NoVerb,
    UnknownVerb(String),
    // how many words seen behind a verb that takes another number of them
    WordCount(Verb, usize),
    BadEscape(String),
    BadHex(String),
    BadNumber(String),
    // words that spell no slip
    NoSlip(SlipWordError),
    // a call on a book where none is open
    NoBook,
    OutOfMemory(AllocError),
}

impl From<AllocError> for Fault {
    ghost from_gives = { λ _ f. f ≡ OutOfMemory alloc_error };

    fn from(error: AllocError) -> Fault {
        Fault::OutOfMemory(error)
    }
}

// Case by case, so that want of memory is one case of a fault.
impl From<WordError> for Fault {
    ghost from_gives = { λ e f. f ≡ fault_of e };

    fn from(error: WordError) -> Fault {
        match error {
            WordError::BadEscape(word) => Fault::BadEscape(word),
            WordError::OutOfMemory(error) => Fault::OutOfMemory(error),
        }
    }
}

impl From<SlipWordError> for Fault {
    ghost from_gives = { λ e f. f ≡ fault_of_words e };

    fn from(error: SlipWordError) -> Fault {
        match error {
            SlipWordError::OutOfMemory(error) => Fault::OutOfMemory(error),
            error => Fault::NoSlip(error),
        }
    }
}

impl fmt::Display for Fault {
    ghost output = { λ f. Some (fault_text f) };

    fn fmt<W: fmt::Write>(&self, f: &mut fmt::Formatter<W>) -> fmt::Result {
        match self {
            Fault::NoVerb => write!(f, "no verb"),
            Fault::UnknownVerb(verb) => write!(f, "unknown verb {verb}"),
            Fault::WordCount(verb, given) => {
                let taken = verb.taken();
                write!(f, "{verb} takes {taken}, not {given}")
            }
            Fault::BadEscape(word) => write!(f, "bad escape in {word}"),
            Fault::BadHex(word) => write!(f, "bad hexadecimal in {word}"),
            Fault::BadNumber(word) => write!(f, "bad number in {word}"),
            Fault::NoSlip(error) => write!(f, "{error}"),
            Fault::NoBook => write!(f, "no book is open"),
            Fault::OutOfMemory(_) => write!(f, "out of memory"),
        }
    }
}

impl Error for Fault {}
