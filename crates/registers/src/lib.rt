// The registers that a host lends to a book: the parties and the countries that reports may name.
#![tactic(auto)]

ghost use Rattle.std.specs.Prelude.{◌≡◌, Decides, IfOk, MatchResult, length, take};
ghost use Rattle.codes.specs.Codes.{text_of};
ghost use Rattle.refusals.specs.Words.{parts_of};
ghost use Rattle.refusals.specs.declared.refusal.Refusal.TheVariants.{RegisterDisordered};
ghost use Rattle.registers.specs.Listed.{InOrder, Lists};

use codes::alphabet::Alphabet;
use codes::code::{Code, Country, Lei};
use refusals::refusal::Refusal;
use table::container::Table;

// Codes in order, lent to be read.
pub type Register<'r, C> = Table<C, &'r [C]>;

// Both registers, checked.
#[derive(Drop)]
pub struct Registers<'r> {
    pub parties: Register<'r, Lei>,
    pub countries: Register<'r, Country>,
}

// Refuses lists that are too long or out of order.
pub fn check_registers<'r>(
    parties: &'r [Lei],
    countries: &'r [Country],
) -> Result<Registers<'r>, Refusal>
    ensures judged { MatchResult result (λ _. InOrder parties.now × InOrder countries.now) (λ e. (parts_of e ≡ parts_of RegisterDisordered) × (InOrder parties.now → InOrder countries.now → ⊥)) }
    ensures parties { IfOk result (λ r. (r.parties.used ≡ length parties.now) × (r.parties.rows.now ≡ parties.now)) }
    ensures countries { IfOk result (λ r. (r.countries.used ≡ length countries.now) × (r.countries.rows.now ≡ countries.now)) }
{
    Ok(Registers {
        parties: Table::register(parties)?,
        countries: Table::register(countries)?,
    })
}

// Whether a register, of parties or of countries, has this code.
pub fn knows<A: Alphabet, const LEAST: usize, const MOST: usize>(
    register: &Register<Code<A, LEAST, MOST>>,
    code: &Code<A, LEAST, MOST>,
) -> bool
    ensures { Decides result (Lists (take register.now.used register.now.rows.now) (text_of code.now)) }
{
    register.find(code).is_ok()
}
