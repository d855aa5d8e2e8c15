// Rows in the order of their keys: the test of the order, and the search that it allows.
ghost use Rattle.std.specs.Prelude.{◌≡◌, ◌<◌, ◌≤◌, map, length, Decides, IfOk, MatchResult};
ghost use Rattle.table.specs.Order.{Answers, Ascending, StandsAt, keys};

use keys::key::{Key, Keyed};

// Where the row with this key stands, or else the place where it would have to stand.
pub fn find<R: Keyed>(rows: &[R], key: &R::Key) -> Result<usize, usize>
    ensures within { MatchResult result (λ i. i < length rows.now) (λ i. i ≤ length rows.now) }
    ensures stands { IfOk result (StandsAt R.Key.cmp (map R.id rows.now) key.now) }
    ensures law { Ascending R.Key.cmp (map R.id rows.now) → Answers R.Key.cmp (map R.id rows.now) key.now result }
{
    rows.binary_search_by(|row| row.key().compare(key))
}

// Whether the keys of the rows ascend strictly.
pub fn is_ascending<R: Keyed>(rows: &[R]) -> bool
    ensures { Decides result (Ascending R.Key.cmp (map R.id rows.now)) }
{
    rows.is_sorted_by(|row, next| row.key().compare(next.key()).is_lt())
}

// The same of the used rows alone.
pub fn used_ascend<R: Keyed>(rows: &[R], used: usize) -> bool
    ensures { Decides result (Ascending R.Key.cmp (keys R.id used rows.now)) }
{
    is_ascending(&rows[..used.min(rows.len())])
}
