// A close of the rows of a table.
ghost use Rattle.std.specs.Prelude.{◌≡◌, length};
ghost use Rattle.closing.specs.Closing.{Closes};
ghost use Rattle.closing.specs.Lists.{lists_of};

use crate::passes::{judge_all, settle_all};
use business::business_day::BusinessDay;
use codes::code::{Country, Lei};
use refusals::refusal::Refusal;
use registers::check_registers;
use rows::notice::Notice;
use rows::row::Row;
use rules::room::room;
use sheets::sheet::Sheet;
use table::closing::close_up;

// What an accepted close comes to.
#[derive(Clone, Copy)]
pub struct Closed {
    // how many rows are used then
    pub used: usize,
    pub notices: usize,
    // how many pairs were taken up
    pub pairs: usize,
    pub next_day: BusinessDay,
}

// Closes the day of the used rows. Whatever is refused leaves every row and every place for notices as it was.
pub fn close_table<S: Sheet>(
    sheet: &S,
    rows: &mut [Row],
    used: usize,
    today: BusinessDay,
    parties: &[Lei],
    countries: &[Country],
    notices: &mut [Notice],
) -> Result<Closed, Refusal>
    ensures { Closes (S.meaning sheet.now) (lists_of parties.now countries.now (length notices.old)) today used rows.old rows.new notices.old notices.new result }
{
    let used = used.min(room(rows));
    let registers = check_registers(parties, countries)?;
    if notices.len() < used {
        return Err(Refusal::NoticeListShort);
    }
    let next_day = BusinessDay::after(today.date()).ok_or(Refusal::CalendarEnds)?;
    let (sent, pairs) = judge_all(sheet, rows, used, today, &registers, notices);
    settle_all(rows, used);
    let used = close_up(rows, used, Row::blank());
    Ok(Closed {
        used,
        notices: sent,
        pairs,
        next_day,
    })
}
