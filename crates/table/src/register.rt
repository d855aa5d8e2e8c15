// Registers: lists that a host lends to be read, in the order of their keys.
ghost use Rattle.std.specs.Prelude.{◌≡◌, length, MatchResult};
ghost use Rattle.refusals.specs.Words.{parts_of};
ghost use Rattle.refusals.specs.declared.refusal.Refusal.TheVariants.{RegisterDisordered};
ghost use Rattle.table.specs.Register.{IsRegister};

use crate::container::Table;
use crate::order::is_ascending;
use keys::key::Keyed;
use refusals::refusal::Refusal;
use std::marker::PhantomData;

// The most entries that a register may have.
pub const MOST_ENTRIES: usize = 65_536;

// Refuses a list that is no register: too many entries, or keys that do not ascend strictly. The test alone, for a host
// that makes no table.
pub fn check_register<R: Keyed>(entries: &[R]) -> Result<(), Refusal>
    ensures { MatchResult result (λ _. IsRegister R.Key.cmp R.id entries.now) (λ e. (parts_of e ≡ parts_of RegisterDisordered) × (IsRegister R.Key.cmp R.id entries.now → ⊥)) }
{
    if entries.len() > MOST_ENTRIES || !is_ascending(entries) {
        return Err(Refusal::RegisterDisordered);
    }
    Ok(())
}

impl<'t, R: Keyed> Table<R, &'t [R]> {
    // A register, whose entries are all used. A list that is none is refused.
    pub fn register(entries: &'t [R]) -> Result<Self, Refusal>
        ensures { MatchResult result (λ t. (t.used ≡ length entries.now) × (t.rows.now ≡ entries.now) × IsRegister R.Key.cmp R.id entries.now) (λ e. (parts_of e ≡ parts_of RegisterDisordered) × (IsRegister R.Key.cmp R.id entries.now → ⊥)) }
    {
        check_register(entries)?;
        Ok(Table {
            rows: entries,
            used: entries.len(),
            kind: PhantomData,
        })
    }
}
