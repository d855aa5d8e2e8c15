// Freed rows leave the table, and the others close up.
ghost use Rattle.std.specs.Prelude.{◌≡◌, Bool};
ghost use Rattle.table.specs.Changes.{Closes};
ghost use Rattle.table.specs.Order.{Ascending, keys};

use crate::container::Table;
use keys::key::Keyed;

// A row that tells whether its place may be given to another.
// A trait and no closure that each call is handed: a kind of row says it once.
pub trait Freeable: Keyed {
    ghost freed: { Self → Bool };

    fn is_freed(&self) -> bool
        ensures { result ≡ freed self.now };
}

// Takes out the freed rows; the others close up in their order, and blanks take the places behind them. The answer is how
// many rows are used then.
pub fn close_up<R: Freeable>(rows: &mut [R], used: usize, blank: R) -> usize
    ensures rows { Closes R.freed blank used rows.old rows.new result }
    ensures ascends { Ascending R.Key.cmp (keys R.id used rows.old) → Ascending R.Key.cmp (keys R.id result rows.new) }
{
    let end = used.min(rows.len());
    let mut count = 0;
    // By index: one slice is read at one place and written at another, and no iterator lends it twice.
    for i in 0..end {
        let row = rows[i];
        if row.is_freed() {
            continue;
        }
        rows[count] = row;
        count += 1;
    }
    // `fill` would ask that a row's clone cannot fail, which no row's kind has to promise.
    rows[count..end].fill_with(|| blank);
    count
}

impl<'t, R: Freeable> Table<R, &'t mut [R]> {
    // The same with the table's rows; its number tells how many are used then.
    pub fn close_up(&mut self, blank: R)
        ensures lent { self.new.rows.ghost_name ≡ self.old.rows.ghost_name }
        ensures rows { Closes R.freed blank self.old.used self.old.rows.now self.new.rows.now self.new.used }
    {
        self.used = close_up(self.rows, self.used, blank);
    }
}
