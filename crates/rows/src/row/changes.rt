// What reports make of rows.
ghost use Rattle.std.specs.Prelude.{◌≡◌, not, ◌&&◌, if◌then◌else◌};
ghost use Rattle.rows.specs.Standings.{disturbs, replaces};
ghost use Rattle.business.specs.BusinessDays.{day_no};
ghost use Rattle.rows.specs.Changes.{IsAmended, IsEntered};
ghost use Rattle.rows.specs.Entries.{tags_after, tags_in, uncompared};

use super::{Fate, Row, Tags};
use crate::day::due_on;
use crate::key::TradeKey;
use crate::standing::{Standing, is_disturbing, is_replacing};
use crate::state::State;
use crate::tries::Tries;
use business::business_day::BusinessDay;
use fields::field::report::Action;
use report::report::Report;
use sheets::comparing::PLACES;
use sheets::finding::Finding;

impl Tags {
    // What a row keeps of the report that enters it.
    pub fn of(report: &Report) -> Tags
        ensures { result ≡ tags_in report.now }
    {
        Tags {
            other_kind: report.parties.other.kind(),
            country: report.parties.country,
            action: report.action,
            level: report.level,
            eligible: report.eligible,
            details: report.details,
            valuation: report.valuation,
        }
    }

    // What a later report leaves of them.
    pub fn after(&self, report: &Report) -> Tags
        ensures { result ≡ tags_after report.now.action self.now report.now }
    {
        match report.action {
            Action::Modify | Action::Correction => Tags {
                action: self.action,
                eligible: self.eligible,
                valuation: self.valuation,
                ..Tags::of(report)
            },
            Action::ValuationUpdate => Tags {
                valuation: report.valuation,
                ..*self
            },
            _ => *self,
        }
    }
}

// The tries of a row after this action.
fn tries_after(tries: Tries, action: Action) -> Tries
    ensures { result.count ≡ (if replaces action then 0 else tries.count) }
{
    if is_replacing(action) {
        return Tries::none();
    }
    tries
}

// Whether a row that was settled or not still is, after this action.
fn is_settled_after(settled: bool, action: Action) -> bool
    ensures { result ≡ (not (disturbs action) && settled) }
{
    !is_disturbing(action) && settled
}

// The findings of a row that has no pair. A function, since the prover reads no array in the middle of a struct.
#[tactic(auto, unfolding(crate::specs::Entries::uncompared))]
pub fn uncompared() -> [Finding; PLACES]
    ensures { result ≡ uncompared }
{
    [Finding::NotCompared; PLACES]
}

impl Row {
    // The row that a report enters today, standing so.
    pub fn enter(report: &Report, today: BusinessDay, standing: Standing) -> Row
        ensures { IsEntered (day_no today) report.now standing result }
    {
        Row {
            key: TradeKey::of(&report.parties),
            tags: Tags::of(report),
            standing,
            due: due_on(report, today),
            tries: Tries::none(),
            state: State::Wait,
            findings: uncompared(),
            settled: false,
            fate: Fate::Open,
        }
    }

    // The row after a later report, standing so.
    pub fn amended(&self, report: &Report, standing: Standing) -> Row
        ensures { IsAmended self.now report.now standing result }
    {
        Row {
            tags: self.tags.after(report),
            standing,
            tries: tries_after(self.tries, report.action),
            settled: is_settled_after(self.settled, report.action),
            fate: Fate::Open,
            ..*self
        }
    }
}
