// What a book shows of itself.
ghost use Rattle.std.specs.Prelude.{◌≡◌, min, take};
ghost use Rattle.rules.specs.Slices.{room};

use super::Book;
use business::business_day::BusinessDay;
use rows::row::Row;
use rules::room::room;

impl<'t> Book<'t> {
    // The day that the next close closes.
    pub fn day(&self) -> BusinessDay
        ensures { result ≡ self.now.day }
    {
        self.day
    }

    // The used rows, in the order of their keys.
    pub fn rows(&self) -> &[Row]
        ensures { result.now ≡ take (min self.now.used (room self.now.rows.now)) self.now.rows.now }
    {
        let rows = &*self.rows;
        &rows[..self.used.min(room(rows))]
    }
}
