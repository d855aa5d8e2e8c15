// A row enters the table at its place.
ghost use Rattle.std.specs.Prelude.{◌≡◌, min, Some};
ghost use Rattle.table.specs.Changes.{Inserts, InsertsAt, Tells, not_entered_text, used_after};
ghost use Rattle.table.specs.Order.{Ascending, MissingAt, keys};

use crate::container::Table;
use crate::order::find;
use keys::key::Keyed;
use std::error::Error;
use std::fmt;

// Why a row did not enter.
#[derive(Clone, Copy, Debug, PartialEq, Eq)]
pub enum NotEntered {
    // A row with its key stands at this place already.
    Known(usize),
    // Its key is new, and no blank is left.
    Full,
}

impl fmt::Display for NotEntered {
    ghost output = { λ e. Some (not_entered_text e) };

    fn fmt<W: fmt::Write>(&self, f: &mut fmt::Formatter<W>) -> fmt::Result {
        match self {
            NotEntered::Known(at) => write!(f, "key known at place {at}"),
            NotEntered::Full => f.write_str("no blank left"),
        }
    }
}

impl Error for NotEntered {}

// Puts a row at a place that a search gave, so that a caller who has searched need not search again; the rows from there
// on move up by one. A place past the used rows is taken for the one right behind them. The only error is `Full`.
pub fn insert_at<R: Keyed>(rows: &mut [R], used: usize, at: usize, row: R) -> Result<(), NotEntered>
    ensures rows { InsertsAt used rows.old (min at used) row rows.new result }
    ensures ascends { Ascending R.Key.cmp (keys R.id used rows.old) → MissingAt R.Key.cmp (keys R.id used rows.old) (R.id row) (min at used) → Ascending R.Key.cmp (keys R.id (used_after used result) rows.new) }
{
    if used >= rows.len() {
        return Err(NotEntered::Full);
    }
    let at = at.min(used);
    rows.copy_within(at..used, at + 1);
    rows[at] = row;
    Ok(())
}

// Enters a row at its place, unless its key is known or no blank is left.
pub fn insert<R: Keyed>(rows: &mut [R], used: usize, row: R) -> Result<usize, NotEntered>
    ensures rows { Inserts R.Key.cmp R.id used rows.old row rows.new result }
    ensures key { Ascending R.Key.cmp (keys R.id used rows.old) → Tells R.Key.cmp (keys R.id used rows.old) (R.id row) result }
    ensures ascends { Ascending R.Key.cmp (keys R.id used rows.old) → Ascending R.Key.cmp (keys R.id (used_after used result) rows.new) }
{
    match find(&rows[..used.min(rows.len())], row.key()) {
        Ok(at) => Err(NotEntered::Known(at)),
        Err(at) => {
            insert_at(rows, used, at, row)?;
            Ok(at)
        }
    }
}

impl<'t, R: Keyed> Table<R, &'t mut [R]> {
    // Enters a row at its place, unless its key is known or no blank is left.
    pub fn insert(&mut self, row: R) -> Result<usize, NotEntered>
        ensures lent { self.new.rows.ghost_name ≡ self.old.rows.ghost_name }
        ensures count { self.new.used ≡ used_after self.old.used result }
        ensures rows { Inserts R.Key.cmp R.id self.old.used self.old.rows.now row self.new.rows.now result }
        ensures key { Tells R.Key.cmp (keys R.id self.old.used self.old.rows.now) (R.id row) result }
    {
        let at = insert(self.rows, self.used, row)?;
        self.used += 1;
        Ok(at)
    }
}
