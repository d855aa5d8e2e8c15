// Rows, a line for each.
ghost use Rattle.std.specs.Prelude.{◌≡◌, ◌++◌, IfOk, OnOk, map, string_bytes};
ghost use Rattle.std.specs.Option.{option_map};
ghost use Rattle.almanac.specs.Days.{day_or_never};
ghost use Rattle.business.specs.BusinessDays.{day_no};
ghost use Rattle.rows.specs.Entries.{entry_of};
ghost use Rattle.book_texts.specs.Lines.{row_line, rows_text};

use crate::key::push_key;
use business::business_day::BusinessDay;
use rows::row::Row;
use std::alloc::{AllocError, Global};

// A due day; one past the calendar never comes.
fn push_due(out: &mut String, due: Option<BusinessDay>) -> Result<(), AllocError>
    ensures { OnOk result (string_bytes out.new ≡ string_bytes out.old ++ day_or_never (option_map day_no due)) }
{
    match due {
        Some(day) => {
            let date = day.date();
            write!(out, "{date}")
        }
        None => write!(out, "never"),
    }
}

// A row on a line of its own.
pub fn push_row(out: &mut String, row: &Row) -> Result<(), AllocError>
    ensures { OnOk result (string_bytes out.new ≡ string_bytes out.old ++ row_line (entry_of row.now)) }
{
    write!(out, "\n  ")?;
    push_key(out, &row.key)?;
    let standing = row.standing;
    write!(out, " {standing} due ")?;
    push_due(out, row.due)?;
    let tries = row.tries.count();
    let state = row.state;
    write!(out, " tries {tries} {state}")
}

// How many rows there are, and each of them.
pub fn list_rows(alloc: Global, rows: &[Row]) -> Result<String, AllocError>
    ensures { IfOk result (λ s. string_bytes s ≡ rows_text (map entry_of rows.now)) }
{
    let count = rows.len();
    let mut out = format!(in alloc; "{count}")?;
    for row in rows {
        push_row(&mut out, row)?;
    }
    Ok(out)
}
