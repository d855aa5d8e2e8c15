// Opens a book.
ghost use Rattle.std.specs.Prelude.{◌≡◌, length};
ghost use Rattle.business.specs.BusinessDays.{day_no};
ghost use Rattle.book.specs.Calls.{Blanks, Opens, seen};
ghost use Rattle.sheets.specs.Sheets.{Meaning};

use super::Book;
use business::business_day::BusinessDay;
use rows::row::Row;
use rules::room::room;

impl<'t> Book<'t> {
    // A book with no trades that begins on this day. It uses the first 4,096 rows at most, and blanks them; it touches none
    // behind them.
    pub fn open(day: BusinessDay, rows: &'t mut [Row]) -> Book<'t>
        ensures lent { result.rows.ghost_name ≡ rows.entry.ghost_name }
        ensures rows { Blanks rows.old result.rows.now }
        ensures history { (sheet : Meaning) → Opens (record { sheet = sheet; day = day_no day; rows = length rows.old }) (seen result) }
    {
        let room = room(rows);
        let blank = Row::blank();
        rows[..room].fill_with(|| blank);
        Book { day, used: 0, rows }
    }
}
