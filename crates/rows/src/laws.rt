// Theorems on rows, the contract of a function that computes nothing.
ghost use Rattle.std.specs.Prelude.{◌≡◌};
ghost use Rattle.rows.specs.Keys.{key_of, key_order};
ghost use Rattle.rows.specs.Laws.{RowLaws};
ghost use Rattle.rows.specs.declared.key.TradeKey.{TradeKey as Key};

use crate::key::TradeKey;

// Keys and rows that hold the same are the same, the order of keys is that of their texts, and a row takes no action
// that would enter it or call it back.
#[tactic(auto, using(crate::proofs::OneRow::laws, crate::proofs::KeyLaws::ordered))]
pub fn row_laws()
    ensures laws { RowLaws }
    ensures ordered { (a b : Key) → ⟦<TradeKey as Ord>⟧.cmp a b ≡ key_order (key_of a) (key_of b) }
{}
