// The one-letter fields that say what a report is about.
ghost use Rattle.fields.specs.Fields.{action_letter, action_letters, level_letter, level_letters, party_kind_letter, party_kind_letters};
ghost use Rattle.std.proofs.Common.{rules};

use crate::letter::Cases;

// How a report names the other counterparty.
#[derive(Clone, Copy, PartialEq, Eq)]
pub enum PartyKind {
    // By an LEI.
    Lei = b'L' as isize,
    // By a code for a client without an LEI.
    Client = b'C' as isize,
}

impl Cases for PartyKind {
    ghost letters = { party_kind_letters };

    ghost told = { party_kind_letter };

    ghost listed = { Prim.search rules };

    ghost apart = { Prim.search rules };

    fn cases() -> &'static [PartyKind] {
        &[PartyKind::Lei, PartyKind::Client]
    }

    fn case_letter(&self) -> u8 {
        *self as u8
    }
}

// What a report does to the trade or position that it names.
#[derive(Clone, Copy, PartialEq, Eq)]
pub enum Action {
    // Reports it for the first time.
    New = b'N' as isize,
    // Reports a trade that goes into a position on the same day.
    PositionComponent = b'P' as isize,
    // Changes its terms.
    Modify = b'M' as isize,
    // Puts wrong values right.
    Correction = b'R' as isize,
    // Brings a new valuation.
    ValuationUpdate = b'V' as isize,
    // Ends it before its maturity.
    EarlyTermination = b'C' as isize,
    // Ends it in a compression.
    Compression = b'Z' as isize,
    // Withdraws what should never have been reported.
    Error = b'E' as isize,
}

impl Cases for Action {
    ghost letters = { action_letters };

    ghost told = { action_letter };

    ghost listed = { Prim.search rules };

    ghost apart = { Prim.search rules };

    fn cases() -> &'static [Action] {
        &[
            Action::New,
            Action::PositionComponent,
            Action::Modify,
            Action::Correction,
            Action::ValuationUpdate,
            Action::EarlyTermination,
            Action::Compression,
            Action::Error,
        ]
    }

    fn case_letter(&self) -> u8 {
        *self as u8
    }
}

// Whether a report is about one trade or about a position.
#[derive(Clone, Copy, PartialEq, Eq)]
pub enum Level {
    Trade = b'T' as isize,
    Position = b'P' as isize,
}

impl Cases for Level {
    ghost letters = { level_letters };

    ghost told = { level_letter };

    ghost listed = { Prim.search rules };

    ghost apart = { Prim.search rules };

    fn cases() -> &'static [Level] {
        &[Level::Trade, Level::Position]
    }

    fn case_letter(&self) -> u8 {
        *self as u8
    }
}
