// What is measured: reports enter the ordered table.
ghost use Rattle.std.specs.Prelude.{◌≡◌, length, IfOk};
ghost use Rattle.std.specs.Ordering.{on};
ghost use Rattle.codes.specs.Codes.{text_of, text_order};
ghost use Rattle.table.specs.Order.{Ascending, keys};

use crate::report::Report;
use table::container::Table;
use table::insertion::NotEntered;

// Enters all reports into an empty table over these rows. The answer is how many rows are used then.
pub fn enter_all(rows: &mut [Report], reports: &[Report]) -> Result<usize, NotEntered>
    ensures count { IfOk result (λ used. used ≡ length reports.now) }
    ensures ascends { IfOk result (λ used. Ascending (on text_of text_order) (keys (λ report. report.trade) used rows.new)) }
{
    let mut table = Table::empty(rows);
    for report in reports {
        table.insert(*report)?;
    }
    Ok(table.used)
}
