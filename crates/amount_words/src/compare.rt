// Compares two amounts as a journal spells them.
ghost use Rattle.std.specs.Prelude.{◌≡◌, Some, Ok, Err};
ghost use Rattle.refusals.specs.Words.{parts_of};
ghost use Rattle.amount_words.specs.Outcomes.{bad_field, check_of, outcome, outcome_of, outcome_text, check_text, side_name};
ghost use Rattle.amounts.specs.Amounts.{worth};

use crate::comparison::{AmountCheck, Comparison, SentBack, Side};
use amounts::amount::Amount;
use refusals::refusal::Refusal;
use refusals::tag::Tag;
use std::error::Error;
use std::fmt;

impl AmountCheck {
    fn tag(self) -> Tag
        ensures { parts_of (Refusal.BadField result) ≡ bad_field self }
    {
        match self {
            AmountCheck::Price => Tag::Price,
            AmountCheck::Notional => Tag::Notional,
        }
    }

    // The answer to a text that is no amount.
    fn send_back(self, side: Side) -> SentBack
        ensures refusal { parts_of result.refusal ≡ bad_field self }
        ensures side { result.side ≡ side }
    {
        SentBack {
            refusal: Refusal::BadField(self.tag()),
            side,
        }
    }

    fn matches(self, a: &Amount, b: &Amount) -> bool
        ensures { result ≡ check_of self (worth a.now) (worth b.now) }
    {
        match self {
            AmountCheck::Price => a.within_one_percent(b),
            AmountCheck::Notional => a.same_whole(b),
        }
    }
}

// Both texts read, and compared where both are amounts.
pub fn compare_amounts(
    check: AmountCheck,
    first: &[u8],
    second: &[u8],
) -> Result<Comparison, SentBack>
    ensures { outcome result ≡ outcome_of check first.now second.now }
{
    let a = Amount::read(first).map_err(|_| check.send_back(Side::First))?;
    let b = Amount::read(second).map_err(|_| check.send_back(Side::Second))?;
    if check.matches(&a, &b) {
        Ok(Comparison::Matches(a, b))
    } else {
        Ok(Comparison::Differs(a, b))
    }
}

impl fmt::Display for AmountCheck {
    ghost output = { λ c. Some (check_text c) };

    fn fmt<W: fmt::Write>(&self, f: &mut fmt::Formatter<W>) -> fmt::Result {
        match self {
            AmountCheck::Price => write!(f, "price"),
            AmountCheck::Notional => write!(f, "notional"),
        }
    }
}

impl fmt::Display for Side {
    ghost output = { λ s. Some (side_name s) };

    fn fmt<W: fmt::Write>(&self, f: &mut fmt::Formatter<W>) -> fmt::Result {
        match self {
            Side::First => write!(f, "first"),
            Side::Second => write!(f, "second"),
        }
    }
}

impl fmt::Display for Comparison {
    ghost output = { λ c. Some (outcome_text (outcome (Ok c))) };

    fn fmt<W: fmt::Write>(&self, f: &mut fmt::Formatter<W>) -> fmt::Result {
        match self {
            Comparison::Matches(a, b) => write!(f, "{a} {b} matches"),
            Comparison::Differs(a, b) => write!(f, "{a} {b} differs"),
        }
    }
}

impl fmt::Display for SentBack {
    ghost output = { λ s. Some (outcome_text (outcome (Err s))) };

    fn fmt<W: fmt::Write>(&self, f: &mut fmt::Formatter<W>) -> fmt::Result {
        let refusal = self.refusal;
        let side = self.side;
        write!(f, "{refusal} {side}")
    }
}

impl Error for SentBack {}
