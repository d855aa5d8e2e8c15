// Whether a row may be paired.
ghost use Rattle.std.specs.Prelude.{◌≡◌, ℕ};
ghost use Rattle.business.specs.BusinessDays.{day_no};
ghost use Rattle.codes.specs.Codes.{text_of};
ghost use Rattle.rows.specs.Entries.{entry_of};
ghost use Rattle.rules.specs.Judging.{line, registered};
ghost use Rattle.rules.specs.Lists.{has};
ghost use Rattle.judging.specs.Lines.{close_of, line_of, parties_in};

use business::business_day::BusinessDay;
use codes::code::{ClientCode, Lei};
use fields::field::report::PartyKind;
use registers::{Registers, knows};
use rows::day::is_due_later;
use rows::row::Row;
use rows::standing::Standing;

// What is said of a row: the first case that fits.
#[derive(Clone, Copy, Debug, PartialEq, Eq)]
pub enum Line {
    // it was withdrawn
    Gone,
    // it is not due yet
    Early,
    // a party is known by no LEI, or a party or the country is not registered
    Outside,
    // its tries are spent
    Lapsed,
    // it may be paired
    Ready,
}

// Whether the register has this party. A code that is no LEI it cannot have.
#[tactic(auto, using(crate::proofs::Registered::unknown))]
fn is_party(registers: &Registers, code: &ClientCode) -> bool
    ensures { result ≡ has (parties_in registers.now) (text_of code.now) }
{
    match Lei::read(code.bytes()) {
        Ok(lei) => knows(&registers.parties, &lei),
        Err(_) => false,
    }
}

fn is_registered(registers: &Registers, row: &Row) -> bool
    ensures { (places : ℕ) → result ≡ registered (close_of registers.now places) (entry_of row.now) }
{
    row.tags.other_kind == PartyKind::Lei
        && is_party(registers, &row.key.reporter)
        && is_party(registers, &row.key.other)
        && knows(&registers.countries, &row.tags.country)
}

// What is said of a row today.
#[tactic(auto, using(crate::proofs::Lined::withdrawn_kind, crate::proofs::Lined::at_gone, crate::proofs::Lined::at_early, crate::proofs::Lined::at_outside, crate::proofs::Lined::at_lapsed, crate::proofs::Lined::at_ready))]
pub fn first_line(registers: &Registers, today: BusinessDay, row: &Row) -> Line
    ensures { (places : ℕ) → line_of result ≡ line (close_of registers.now places) (day_no today) (entry_of row.now) }
{
    if row.standing == Standing::Withdrawn {
        Line::Gone
    } else if is_due_later(row.due, today) {
        Line::Early
    } else if !is_registered(registers, row) {
        Line::Outside
    } else if row.tries.are_spent() {
        Line::Lapsed
    } else {
        Line::Ready
    }
}
