// The ordered table over lent rows: used rows come first, their keys ascend, and blanks stand behind.
ghost use Rattle.std.specs.Prelude.{◌≡◌, ◌<◌, ◌≤◌, Decides, IfSome, MatchResult, is_some, length};
ghost use Rattle.table.specs.Order.{Answers, Ascending, keys};

use crate::order::{find, used_ascend};
use keys::key::Keyed;
use std::convert::AsSlice;
use std::marker::PhantomData;

// A table is all the rows that someone lends, of a longer slice its front; the first `used` of them are used, and ascend.
// Whoever lends them fixes their memory, so the number of used rows stands beside them; it is clamped wherever it is read.
#[derive(Drop)]
pub struct Table<R: Keyed, S: AsSlice<R>> {
    pub rows: S,
    pub used: usize,
    // the order needs the kind of the rows
    pub kind: PhantomData<R>,
    ghost ascends: { Ascending R.Key.cmp (keys R.id used (S.items rows)) },
}

impl<R: Keyed, S: AsSlice<R>> Table<R, S> {
    // Where the row with this key stands, or else the place where it would have to stand.
    pub fn find(&self, key: &R::Key) -> Result<usize, usize>
        ensures within { MatchResult result (λ i. (i < self.now.used) × (i < length (S.items self.now.rows))) (λ i. (i ≤ self.now.used) × (i ≤ length (S.items self.now.rows))) }
        ensures law { Answers R.Key.cmp (keys R.id self.now.used (S.items self.now.rows)) key.now result }
    {
        let rows = self.rows.as_slice();
        find(&rows[..self.used.min(rows.len())], key)
    }
}

impl<R: Keyed, S: AsSlice<R> + Drop> Table<R, S> {
    // The table of these rows, if the used ones ascend. Who lends rows to be written, and wants to know them afterwards,
    // tests them by `used_ascend` and writes the table down where they are lent.
    pub fn new(rows: S, used: usize) -> Option<Self>
        ensures ascends { Decides (is_some result) (Ascending R.Key.cmp (keys R.id used (S.items rows))) }
        ensures rows { IfSome result (λ t. (t.rows ≡ rows) × (t.used ≡ used)) }
    {
        if !used_ascend(rows.as_slice(), used) {
            return None;
        }
        Some(Table {
            rows,
            used,
            kind: PhantomData,
        })
    }
}

impl<'t, R: Keyed> Table<R, &'t mut [R]> {
    // A table over these rows of which none is used yet.
    pub fn empty(rows: &'t mut [R]) -> Self
        ensures lent { result.rows.ghost_name ≡ rows.entry.ghost_name }
        ensures count { result.used ≡ 0 }
        ensures rows { result.rows.now ≡ rows.old }
    {
        Table {
            rows,
            used: 0,
            kind: PhantomData,
        }
    }
}
