// Where a key stands among the used rows.
ghost use Rattle.std.specs.Prelude.{◌≡◌, min};
ghost use Rattle.intake.specs.Places.{Located};

use rows::key::TradeKey;
use rows::row::Row;
use rules::room::room;
use table::order::find;

// Where the row with this key stands, or else the place where it would have to stand.
pub fn locate(rows: &[Row], used: usize, key: &TradeKey) -> Result<usize, usize>
    ensures { Located used rows.now key.now result }
{
    find(&rows[..used.min(room(rows))], key)
}
