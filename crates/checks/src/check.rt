// The checks that a sheet can ask for.
ghost use Rattle.std.specs.Prelude.{◌≡◌, Some, None, if◌then◌else◌};
ghost use Rattle.std.specs.Option.{option_map};
ghost use Rattle.checks.specs.Checks.{check_number, fits, is_check};

use crate::field::Field;

// How a field of two reports is compared. The numbers are those that sheets give.
#[derive(Clone, Copy, Debug, PartialEq, Eq)]
pub enum Check {
    // amounts, at most one percent of the greater apart
    OnePercent = 1,
    // amounts, the same whole number with the fractions dropped
    WholeNumber = 2,
    // timestamps of one date, and no more than an hour apart unless both venues are no exchange
    WithinAnHour = 3,
    // timestamps of one date
    SameDate = 4,
    // any values, and equal
    Exact = 5,
    // sides, a buyer's and a seller's
    Opposite = 6,
}

impl Check {
    // The check that a number names.
    pub fn of_number(number: u8) -> Option<Check>
        ensures { option_map check_number result ≡ (if is_check number then Some number else None) }
    {
        Some(match number {
            1 => Check::OnePercent,
            2 => Check::WholeNumber,
            3 => Check::WithinAnHour,
            4 => Check::SameDate,
            5 => Check::Exact,
            6 => Check::Opposite,
            _ => return None,
        })
    }

    // Whether a field may be given this check.
    pub fn fits(self, field: Field) -> bool
        ensures { result ≡ fits self field }
    {
        match self {
            Check::OnePercent | Check::WholeNumber => matches!(
                field,
                Field::Price | Field::Notional | Field::ExchangeRate1
            ),
            Check::WithinAnHour | Check::SameDate => matches!(
                field,
                Field::ExecutionTimestamp | Field::ClearingTimestamp
            ),
            Check::Exact => true,
            Check::Opposite => matches!(field, Field::Side),
        }
    }
}

impl From<Check> for u8 {
    ghost from_gives = { λ check n. n ≡ check_number check };

    fn from(check: Check) -> u8 {
        check as u8
    }
}
