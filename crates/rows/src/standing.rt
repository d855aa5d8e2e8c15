// How a row stands, and which actions it takes.
ghost use Rattle.std.specs.Prelude.{◌≡◌, Some};
ghost use Rattle.rows.specs.Standings.{disturbs, enters, is_dated, replaces};
ghost use Rattle.rows.specs.Words.{standing_text};

use fields::field::report::Action;
use std::fmt;

#[derive(Clone, Copy, Debug, PartialEq, Eq)]
pub enum Standing {
    // The trade runs.
    Active,
    // It was terminated, compressed, or went into a position.
    Ended,
    // It should never have been reported; the next close frees its row.
    Withdrawn,
}

impl Standing {
    // How a row stands that is entered by this action; none of an action that enters no row.
    pub fn entered_by(action: Action) -> Option<Standing>
        ensures { result ≡ enters action }
    {
        match action {
            Action::New => Some(Standing::Active),
            Action::PositionComponent => Some(Standing::Ended),
            _ => None,
        }
    }
}

impl fmt::Display for Standing {
    ghost output = { λ standing. Some (standing_text standing) };

    fn fmt<W: fmt::Write>(&self, f: &mut fmt::Formatter<W>) -> fmt::Result {
        f.write_str(match self {
            Standing::Active => "active",
            Standing::Ended => "ended",
            Standing::Withdrawn => "withdrawn",
        })
    }
}

// Whether an action replaces what describes the trade, and lets its row try again from the start.
pub fn is_replacing(action: Action) -> bool
    ensures { result ≡ replaces action }
{
    matches!(action, Action::Modify | Action::Correction)
}

// Whether a report of this action may not be dated ahead.
pub fn is_dated(action: Action) -> bool
    ensures { result ≡ is_dated action }
{
    matches!(
        action,
        Action::New | Action::PositionComponent | Action::Modify | Action::Correction
    )
}

// Whether an action makes a pair to be compared anew: all do but a valuation.
pub fn is_disturbing(action: Action) -> bool
    ensures { result ≡ disturbs action }
{
    !matches!(action, Action::ValuationUpdate)
}
