// What a close finds of a row, from what the rows hold before it.
ghost use Rattle.std.specs.Prelude.{◌≡◌, ℕ, false, Some};
ghost use Rattle.business.specs.BusinessDays.{day_no};
ghost use Rattle.rows.specs.Entries.{entry_of};
ghost use Rattle.rules.specs.Judging.{alone, judged, takes_up};
ghost use Rattle.rules.specs.Slices.{entries_of};
ghost use Rattle.rules.specs.Books.{InOrder};
ghost use Rattle.judging.specs.Lines.{close_of, found};

use crate::line::{Line, first_line};
use crate::pair::paired;
use crate::partner::partner;
use business::business_day::BusinessDay;
use registers::Registers;
use rows::row::changes::uncompared;
use rows::row::{Fate, Row, Verdict};
use rows::state::State;
use rows::tries::Tries;
use sheets::sheet::Sheet;

// What was found of a row, and whether it is the first row of a pair that is taken up.
#[derive(Clone, Copy)]
pub struct Judged {
    pub fate: Fate,
    pub is_taken_up: bool,
}

// What is found of a row without a pair.
fn unpaired(state: State, tries: Tries) -> Fate
    ensures { found result ≡ Some (Some (alone state tries.count)) }
{
    let findings = uncompared();
    Fate::Stays(Verdict {
        state,
        findings,
        tries,
        paired: false,
    })
}

// A row that is not due yet shows what it showed.
fn unchanged(row: &Row) -> Fate
    ensures { found result ≡ Some (Some (record { state = row.now.state; findings = row.now.findings; tries = row.now.tries.count; paired = false })) }
{
    let findings = row.findings;
    Fate::Stays(Verdict {
        state: row.state,
        findings,
        tries: row.tries,
        paired: false,
    })
}

// What a close finds of a row.
pub fn judge<S: Sheet>(
    sheet: &S,
    rows: &[Row],
    used: usize,
    row: &Row,
    today: BusinessDay,
    registers: &Registers,
) -> Judged
    ensures fate { (places : ℕ) → InOrder (entries_of used rows.now) → found result.fate ≡ Some (judged (S.meaning sheet.now) (close_of registers.now places) (day_no today) (entries_of used rows.now) (entry_of row.now)) }
    ensures taken_up { (places : ℕ) → InOrder (entries_of used rows.now) → result.is_taken_up ≡ takes_up (close_of registers.now places) (day_no today) (entries_of used rows.now) (entry_of row.now) }
{
    let fate = match first_line(registers, today, row) {
        Line::Gone => Fate::Freed,
        Line::Early => unchanged(row),
        Line::Outside => unpaired(State::Outs, row.tries),
        Line::Lapsed => unpaired(State::Laps, row.tries),
        Line::Ready => match partner(rows, used, row, today, registers) {
            Some(mirror) => return paired(sheet, row, &mirror),
            None => unpaired(State::Npar, row.tries.one_more()),
        },
    };
    Judged {
        fate,
        is_taken_up: false,
    }
}
