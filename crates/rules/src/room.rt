// How many rows of a table a book may use.
ghost use Rattle.std.specs.Prelude.{◌≡◌};
ghost use Rattle.rules.specs.Slices.{room};

use rows::row::Row;

// The most rows that a book uses, however many the host lends.
pub const MOST_ROWS: usize = 4_096;

// The rows of a table that a book may use.
pub fn room(rows: &[Row]) -> usize
    ensures { result ≡ room rows.now }
{
    rows.len().min(MOST_ROWS)
}
