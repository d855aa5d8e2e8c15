// What a report makes of a table.
ghost use Rattle.std.specs.Prelude.{◌≡◌};
ghost use Rattle.intake.specs.Intake.{AmendsTo, Enters, Receives};

use crate::locate::locate;
use business::business_day::BusinessDay;
use refusals::refusal::Refusal;
use report::report::Report;
use rows::day::is_ahead;
use rows::key::TradeKey;
use rows::row::Row;
use rows::standing::Standing;
use rules::room::room;
use table::insertion::insert_at;

// Changes a row by a later report of its trade.
fn amend(row: &mut Row, report: &Report) -> Result<(), Refusal>
    ensures { AmendsTo row.old report.now row.new result }
{
    row.take_action(report.action)?;
    let standing = row.standing;
    *row = row.amended(report, standing);
    Ok(())
}

// Enters the row of a trade that the table does not have, at the place where it would have to stand. Answers how many
// rows are used then.
fn enter(
    rows: &mut [Row],
    used: usize,
    at: usize,
    today: BusinessDay,
    report: &Report,
) -> Result<usize, Refusal>
    ensures { Enters today used rows.old at report.now result rows.new }
{
    let standing = Standing::entered_by(report.action).ok_or(Refusal::UnknownTrade)?;
    let row = Row::enter(report, today, standing);
    let room = room(rows);
    let used = used.min(room);
    let Ok(()) = insert_at(&mut rows[..room], used, at, row) else {
        return Err(Refusal::BookFull);
    };
    Ok(used + 1)
}

// Takes a report into a table of which so many rows are used. Answers how many are used then; whatever is refused leaves
// every row as it was.
pub fn receive(
    rows: &mut [Row],
    used: usize,
    today: BusinessDay,
    report: &Report,
) -> Result<usize, Refusal>
    ensures { Receives today used rows.old report.now result rows.new }
{
    let key = TradeKey::of(&report.parties);
    if key.reporter == key.other {
        return Err(Refusal::SameParty);
    }
    if is_ahead(report, today) {
        return Err(Refusal::DatedAhead);
    }
    match locate(rows, used, &key) {
        Ok(at) => {
            amend(&mut rows[at], report)?;
            Ok(used)
        }
        Err(at) => enter(rows, used, at, today, report),
    }
}
