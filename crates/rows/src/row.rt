// A row of a book's table.
ghost use Rattle.std.specs.Prelude.{◌≡◌};

pub mod blank;
pub mod changes;
pub mod keyed;
pub mod taking;

use crate::key::TradeKey;
use crate::standing::Standing;
use crate::state::State;
use crate::tries::Tries;
use amounts::amount::Amount;
use business::business_day::BusinessDay;
use calendar::date::Date;
use codes::code::Country;
use fields::field::report::{Action, Level, PartyKind};
use report::details::Details;
use sheets::comparing::PLACES;
use sheets::finding::Finding;

// What a row keeps of its reports besides the key.
#[derive(Clone, Copy)]
pub struct Tags {
    pub other_kind: PartyKind,
    pub country: Country,
    // of the report that entered the row, as is the eligible date
    pub action: Action,
    pub level: Option<Level>,
    pub eligible: Option<Date>,
    pub details: Details,
    pub valuation: Option<Amount>,
}

// What a close makes of a row that stays.
#[derive(Clone, Copy)]
pub struct Verdict {
    pub state: State,
    pub findings: [Finding; PLACES],
    pub tries: Tries,
    pub paired: bool,
}

// What the close under way has found of a row. Rows are judged from what they hold before a close, so it stands beside
// that until all are judged; between calls no row has one.
#[derive(Clone, Copy)]
pub enum Fate {
    Open,
    Freed,
    Stays(Verdict),
}

// What both sides' reports of a trade become: one row for each.
#[derive(Clone, Copy)]
pub struct Row {
    pub key: TradeKey,
    pub tags: Tags,
    pub standing: Standing,
    // the day from which the row looks for its mirror; none where it never comes
    pub due: Option<BusinessDay>,
    pub tries: Tries,
    pub state: State,
    pub findings: [Finding; PLACES],
    // paired at the last accepted close, and no action but V accepted since
    pub settled: bool,
    pub fate: Fate,
}
