// The refusals.
ghost use Rattle.std.specs.Prelude.{◌≡◌, Some};
ghost use Rattle.std.specs.Option.{option_map_or};
ghost use Rattle.refusals.specs.Words.{parts_of, refusal_text, tag_number};

use crate::tag::Tag;
use std::error::Error;
use std::fmt;

// Why a call is sent back. It leaves everything as it was.
#[derive(Clone, Copy, Debug, PartialEq, Eq)]
pub enum Refusal {
    // The bytes of a slip are not laid out as one.
    TornSlip,
    // A field that is needed is not there.
    FieldMissing(Tag),
    // A field's text breaks the rule of its value.
    BadField(Tag),
    // Both counterparties of a report are one.
    SameParty,
    // The trade is of a day that has not come.
    DatedAhead,
    // A trade is to be entered that the book has.
    AlreadyEntered,
    // The book has no such trade.
    UnknownTrade,
    // What stands in the book does not take such a report.
    StandingForbids,
    // No blank row is left.
    BookFull,
    // There are fewer places for notices than rows in use.
    NoticeListShort,
    // A register's entries are too many, or do not ascend strictly.
    RegisterDisordered,
    // The next business day is past 2099.
    CalendarEnds,
    // A text that is to name the day on which a book opens names no day, or a closed one.
    NotABusinessDay,
    // A client's sheet breaks the rule of such sheets.
    BadSheet,
    // The buffer is too short for the slip that is to be written.
    SlipBufferShort,
}

impl Refusal {
    // The number by which senders know the refusal.
    pub fn number(self) -> u8
        ensures { result ≡ (parts_of self).number }
    {
        match self {
            Refusal::TornSlip => 1,
            Refusal::FieldMissing(_) => 2,
            Refusal::BadField(_) => 3,
            Refusal::SameParty => 4,
            Refusal::DatedAhead => 5,
            Refusal::AlreadyEntered => 6,
            Refusal::UnknownTrade => 7,
            Refusal::StandingForbids => 8,
            Refusal::BookFull => 9,
            Refusal::NoticeListShort => 10,
            Refusal::RegisterDisordered => 11,
            Refusal::CalendarEnds => 12,
            Refusal::NotABusinessDay => 13,
            Refusal::BadSheet => 14,
            Refusal::SlipBufferShort => 15,
        }
    }

    // The field at fault, if the refusal names one.
    pub fn tag(self) -> Option<Tag>
        ensures { option_map_or tag_number result 0 ≡ (parts_of self).tag }
    {
        match self {
            Refusal::FieldMissing(tag) | Refusal::BadField(tag) => Some(tag),
            _ => None,
        }
    }

    // What the refusal says in words.
    pub fn words(self) -> &'static str
        ensures { result.now ≡ (parts_of self).words }
    {
        match self {
            Refusal::TornSlip => "torn slip",
            Refusal::FieldMissing(_) => "field missing",
            Refusal::BadField(_) => "bad field",
            Refusal::SameParty => "same party",
            Refusal::DatedAhead => "dated ahead",
            Refusal::AlreadyEntered => "already entered",
            Refusal::UnknownTrade => "unknown trade",
            Refusal::StandingForbids => "standing forbids",
            Refusal::BookFull => "book full",
            Refusal::NoticeListShort => "notice list short",
            Refusal::RegisterDisordered => "register disordered",
            Refusal::CalendarEnds => "calendar ends",
            Refusal::NotABusinessDay => "not a business day",
            Refusal::BadSheet => "bad sheet",
            Refusal::SlipBufferShort => "slip buffer short",
        }
    }
}

impl fmt::Display for Refusal {
    ghost output = { λ r. Some (refusal_text (parts_of r)) };

    fn fmt<W: fmt::Write>(&self, f: &mut fmt::Formatter<W>) -> fmt::Result {
        let number = self.number();
        let words = self.words();
        match self.tag() {
            Some(tag) => write!(f, "refused {number} {words} tag {tag}"),
            None => write!(f, "refused {number} {words}"),
        }
    }
}

impl Error for Refusal {}
