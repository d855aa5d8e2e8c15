// Rows in an ordered table.
ghost use Rattle.rows.specs.Closing.{is_freed};
ghost use Rattle.std.proofs.Common.{rules};
ghost use Rattle.std.specs.Cmp.Rules.{comparing};

use super::{Fate, Row};
use crate::key::TradeKey;
use keys::key::{Key, Keyed};
use std::cmp::Ordering;
use table::closing::Freeable;

impl Key for TradeKey {
    ghost cmp = { ⟦<TradeKey as Ord>⟧.cmp };

    ghost total = { Prim.search (comparing, rules) };

    fn compare(&self, other: &TradeKey) -> Ordering {
        Ord::cmp(self, other)
    }
}

impl Keyed for Row {
    type Key = TradeKey;

    ghost id = { λ row. row.key };

    fn key(&self) -> &TradeKey {
        &self.key
    }
}

impl Freeable for Row {
    ghost freed = { λ row. is_freed row.fate };

    fn is_freed(&self) -> bool {
        matches!(self.fate, Fate::Freed)
    }
}
