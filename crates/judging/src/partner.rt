// The other side of a trade.
ghost use Rattle.std.specs.Prelude.{◌≡◌, ℕ};
ghost use Rattle.std.specs.Option.{option_map};
ghost use Rattle.business.specs.BusinessDays.{day_no};
ghost use Rattle.rows.specs.Entries.{entry_of};
ghost use Rattle.rows.specs.Keys.{key_of};
ghost use Rattle.rules.specs.Books.{entry_at};
ghost use Rattle.rules.specs.Judging.{partner};
ghost use Rattle.rules.specs.Slices.{entries_of};
ghost use Rattle.rules.specs.Books.{InOrder};
ghost use Rattle.judging.specs.Lines.{close_of};

use crate::line::{Line, first_line};
use business::business_day::BusinessDay;
use registers::Registers;
use rows::key::TradeKey;
use rows::row::Row;
use table::order::find;

// The row with this key among the used ones.
fn row_at(rows: &[Row], used: usize, key: &TradeKey) -> Option<Row>
    ensures { InOrder (entries_of used rows.now) → option_map entry_of result ≡ entry_at (key_of key.now) (entries_of used rows.now) }
{
    let rows = &rows[..used.min(rows.len())];
    match find(rows, key) {
        Ok(at) => Some(rows[at]),
        Err(_) => None,
    }
}

// The row's mirror, where both may be paired. Such rows are found by their keys; nothing is scanned.
pub fn partner(
    rows: &[Row],
    used: usize,
    row: &Row,
    today: BusinessDay,
    registers: &Registers,
) -> Option<Row>
    ensures { (places : ℕ) → InOrder (entries_of used rows.now) → option_map entry_of result ≡ partner (close_of registers.now places) (day_no today) (entries_of used rows.now) (entry_of row.now) }
{
    let mirror = row_at(rows, used, &row.key.mirror())?;
    match first_line(registers, today, &mirror) {
        Line::Ready => Some(mirror),
        _ => None,
    }
}
