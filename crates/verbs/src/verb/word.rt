// The word of each verb, and how many words it takes.
ghost use Rattle.std.specs.Prelude.{◌≡◌, Some};
ghost use Rattle.std.specs.Result.{result_ok};
ghost use Rattle.verbs.specs.Verbs.{taken_text, verb_named, verb_text};

use crate::verb::{UnknownVerb, Verb};
use amount_words::comparison::AmountCheck;
use std::fmt;

impl<'a> TryFrom<&'a [u8]> for Verb {
    type Error = UnknownVerb;

    ghost try_from_gives = { λ word verb. result_ok verb ≡ verb_named word.now };

    fn try_from(word: &'a [u8]) -> Result<Verb, UnknownVerb> {
        match word {
            b"price" => Ok(Verb::Compare(AmountCheck::Price)),
            b"notional" => Ok(Verb::Compare(AmountCheck::Notional)),
            b"day" => Ok(Verb::Day),
            b"slip" => Ok(Verb::Slip),
            b"write" => Ok(Verb::Write),
            b"sheet" => Ok(Verb::Sheet),
            b"compare" => Ok(Verb::CompareSlips),
            b"open" => Ok(Verb::Open),
            b"register" => Ok(Verb::Register),
            b"countries" => Ok(Verb::Countries),
            b"report" => Ok(Verb::Report),
            b"close" => Ok(Verb::Close),
            b"lookup" => Ok(Verb::Lookup),
            b"rows" => Ok(Verb::Rows),
            _ => Err(UnknownVerb),
        }
    }
}

impl fmt::Display for Verb {
    ghost output = { λ v. Some (verb_text v) };

    fn fmt<W: fmt::Write>(&self, f: &mut fmt::Formatter<W>) -> fmt::Result {
        match self {
            Verb::Compare(check) => write!(f, "{check}"),
            Verb::Day => write!(f, "day"),
            Verb::Slip => write!(f, "slip"),
            Verb::Write => write!(f, "write"),
            Verb::Sheet => write!(f, "sheet"),
            Verb::CompareSlips => write!(f, "compare"),
            Verb::Open => write!(f, "open"),
            Verb::Register => write!(f, "register"),
            Verb::Countries => write!(f, "countries"),
            Verb::Report => write!(f, "report"),
            Verb::Close => write!(f, "close"),
            Verb::Lookup => write!(f, "lookup"),
            Verb::Rows => write!(f, "rows"),
        }
    }
}

impl Verb {
    // The words that stand behind the verb, as they are told.
    pub fn taken(self) -> &'static str
        ensures { result.now ≡ taken_text self }
    {
        match self {
            Verb::Compare(_) | Verb::CompareSlips => "2 words",
            Verb::Day | Verb::Slip | Verb::Sheet => "1 word",
            Verb::Write | Verb::Report => "the words of a slip",
            Verb::Open => "1 or 2 words",
            Verb::Register | Verb::Countries => "any words",
            Verb::Close => "1 word at most",
            Verb::Lookup => "3 words",
            Verb::Rows => "no word",
        }
    }
}
