// What the table's users write: the key of a row, which rows are freed, and calls at rows of three kinds.
ghost use Rattle.std.specs.Prelude.{◌≡◌, take, drop, map, min, Decides, IfNone, IfOk, IfSome, is_some};
ghost use Rattle.table.specs.Changes.{Closes, Inserts, InsertsAt, Tells, used_after};
ghost use Rattle.table.specs.Order.{Answers, Ascending, MissingAt, keys};
ghost use Rattle.std.proofs.Common.{rules};
ghost use Rattle.std.specs.Cmp.{back_total, nat_cmp_total, on_total};
ghost use Rattle.std.specs.Cmp.Rules.{comparing};
ghost use Rattle.table_tests.specs.Samples.{code_order, highest_first, number_order, sample_keys, sample_order};

use crate::sample::{Number, Numbered, Priority, Sample, SampleKey, Ticket};
use codes::code::{Country, Lei};
use keys::key::{Key, Keyed};
use std::cmp::Ordering;
use std::marker::PhantomData;
use table::closing::Freeable;
use table::container::Table;
use table::insertion::{NotEntered, insert, insert_at};
use table::order::{find, is_ascending, used_ascend};

impl Key for SampleKey {
    ghost cmp = { ⟦<SampleKey as Ord>⟧.cmp };

    ghost total = { Prim.search (comparing, rules) };

    fn compare(&self, other: &SampleKey) -> Ordering {
        Ord::cmp(self, other)
    }
}

impl Keyed for Sample {
    type Key = SampleKey;

    ghost id = { λ row. row.key };

    fn key(&self) -> &SampleKey {
        &self.key
    }
}

impl Freeable for Sample {
    ghost freed = { λ row. row.done };

    fn is_freed(&self) -> bool {
        self.done
    }
}

impl Key for Number {
    ghost cmp = { number_order };

    ghost total = { on_total (λ n. n.value) nat_cmp_total };

    fn compare(&self, other: &Number) -> Ordering {
        self.value.cmp(&other.value)
    }
}

impl Keyed for Numbered {
    type Key = Number;

    ghost id = { λ row. row.number };

    fn key(&self) -> &Number {
        &self.number
    }
}

impl Key for Priority {
    ghost cmp = { highest_first };

    ghost total = { back_total (on_total (λ p. p.level) nat_cmp_total) };

    fn compare(&self, other: &Priority) -> Ordering {
        Ord::cmp(other, self)
    }
}

impl Keyed for Ticket {
    type Key = Priority;

    ghost id = { λ ticket. ticket.priority };

    fn key(&self) -> &Priority {
        &self.priority
    }
}

// Where a key without an equality stands.
pub fn find_number(rows: &[Numbered], number: &Number) -> Result<usize, usize>
    ensures { Ascending number_order (map (λ x. x.number) rows.now) → Answers number_order (map (λ x. x.number) rows.now) number.now result }
{
    find(rows, number)
}

// Where a key stands among rows that are not in the library's order of it.
pub fn find_priority(tickets: &[Ticket], priority: &Priority) -> Result<usize, usize>
    ensures { Ascending highest_first (map (λ x. x.priority) tickets.now) → Answers highest_first (map (λ x. x.priority) tickets.now) priority.now result }
{
    find(tickets, priority)
}

// Where a sample's key stands among the used rows.
pub fn find_sample(table: &Table<Sample, &[Sample]>, key: &SampleKey) -> Result<usize, usize>
    ensures { Answers sample_order (sample_keys table.now.used table.now.rows.now) key.now result }
{
    table.find(key)
}

// Whether all samples are in order.
pub fn samples_ascend(rows: &[Sample]) -> bool
    ensures { Decides result (Ascending sample_order (map (λ x. x.key) rows.now)) }
{
    is_ascending(rows)
}

// The lender of the rows knows them after they were tested and a row entered through their table.
pub fn enter_sample(
    rows: &mut [Sample],
    used: usize,
    row: Sample,
) -> Option<Result<usize, NotEntered>>
    ensures tested { Decides (is_some result) (Ascending sample_order (sample_keys used rows.old)) }
    ensures stay { IfNone result (rows.new ≡ rows.old) }
    ensures rows { IfSome result (λ r. Inserts sample_order (λ x. x.key) used rows.old row rows.new r) }
    ensures key { IfSome result (λ r. Tells sample_order (sample_keys used rows.old) row.key r) }
    ensures ascends { IfSome result (λ r. Ascending sample_order (sample_keys (used_after used r) rows.new)) }
{
    if !used_ascend(rows, used) {
        return None;
    }
    let mut table = Table {
        rows,
        used,
        kind: PhantomData,
    };
    Some(table.insert(row))
}

// And after the table has closed up. The answer is how many rows are used then.
pub fn close(rows: &mut [Sample], used: usize, blank: Sample) -> Option<usize>
    ensures tested { Decides (is_some result) (Ascending sample_order (sample_keys used rows.old)) }
    ensures stay { IfNone result (rows.new ≡ rows.old) }
    ensures rows { IfSome result (λ n. Closes (λ x. x.done) blank used rows.old rows.new n) }
    ensures ascends { IfSome result (λ n. Ascending sample_order (sample_keys n rows.new)) }
{
    if !used_ascend(rows, used) {
        return None;
    }
    let mut table = Table {
        rows,
        used,
        kind: PhantomData,
    };
    table.close_up(blank);
    Some(table.used)
}

// A desk keeps a table, order and all, from call to call. It borrows it: of a slice that lies two structs deep its lender
// would know nothing afterwards.
#[derive(Drop)]
pub struct Desk<'d, 't> {
    pub samples: &'d mut Table<Sample, &'t mut [Sample]>,
}

impl<'d, 't> Desk<'d, 't> {
    pub fn receive(&mut self, row: Sample) -> Result<usize, NotEntered>
        ensures held { self.new.samples.ghost_name ≡ self.old.samples.ghost_name }
        ensures lent { self.new.samples.now.rows.ghost_name ≡ self.old.samples.now.rows.ghost_name }
        ensures count { self.new.samples.now.used ≡ used_after self.old.samples.now.used result }
        ensures rows { Inserts sample_order (λ x. x.key) self.old.samples.now.used self.old.samples.now.rows.now row self.new.samples.now.rows.now result }
        ensures key { Tells sample_order (sample_keys self.old.samples.now.used self.old.samples.now.rows.now) row.key result }
    {
        self.samples.insert(row)
    }
}

// Who lends the rows knows them when the desk is done: two samples in order, whatever stood there before.
pub fn receive_two(rows: &mut [Sample], first: Sample, second: Sample) -> Result<usize, NotEntered>
    ensures { IfOk result (λ _. Ascending sample_order (sample_keys 2 rows.new)) }
{
    let mut table = Table::empty(rows);
    let mut desk = Desk {
        samples: &mut table,
    };
    desk.receive(first)?;
    desk.receive(second)
}

// Over a bare slice: a row is put in at a place that was found before.
pub fn enter_sample_at(
    rows: &mut [Sample],
    used: usize,
    at: usize,
    row: Sample,
) -> Result<(), NotEntered>
    ensures rows { InsertsAt used rows.old (min at used) row rows.new result }
    ensures ascends { Ascending sample_order (sample_keys used rows.old) → MissingAt sample_order (sample_keys used rows.old) row.key (min at used) → Ascending sample_order (sample_keys (used_after used result) rows.new) }
{
    insert_at(rows, used, at, row)
}

// Only the first `most` rows of a longer slice are the table: their lender lends them to the function, and knows that the
// rest stayed as it was.
pub fn enter_front(
    rows: &mut [Sample],
    most: usize,
    used: usize,
    row: Sample,
) -> Result<usize, NotEntered>
    ensures front { Inserts sample_order (λ x. x.key) used (take most rows.old) row (take most rows.new) result }
    ensures key { Ascending sample_order (sample_keys used (take most rows.old)) → Tells sample_order (sample_keys used (take most rows.old)) row.key result }
    ensures ascends { Ascending sample_order (sample_keys used (take most rows.old)) → Ascending sample_order (sample_keys (used_after used result) (take most rows.new)) }
    ensures rest { drop most rows.new ≡ drop most rows.old }
{
    let end = most.min(rows.len());
    insert(&mut rows[..end], used, row)
}

// The same three calls at LEIs, each of which is its own key.
pub fn find_party(table: &Table<Lei, &[Lei]>, lei: &Lei) -> Result<usize, usize>
    ensures { Answers code_order (keys (λ x. x) table.now.used table.now.rows.now) lei.now result }
{
    table.find(lei)
}

pub fn parties_ascend(parties: &[Lei]) -> bool
    ensures { Decides result (Ascending code_order (map (λ x. x) parties.now)) }
{
    is_ascending(parties)
}

pub fn enter_party(table: &mut Table<Lei, &mut [Lei]>, lei: Lei) -> Result<usize, NotEntered>
    ensures lent { table.new.rows.ghost_name ≡ table.old.rows.ghost_name }
    ensures count { table.new.used ≡ used_after table.old.used result }
    ensures rows { Inserts code_order (λ x. x) table.old.used table.old.rows.now lei table.new.rows.now result }
    ensures key { Tells code_order (keys (λ x. x) table.old.used table.old.rows.now) lei result }
{
    table.insert(lei)
}

// And at countries.
pub fn find_country(table: &Table<Country, &[Country]>, country: &Country) -> Result<usize, usize>
    ensures { Answers code_order (keys (λ x. x) table.now.used table.now.rows.now) country.now result }
{
    table.find(country)
}

pub fn countries_ascend(countries: &[Country]) -> bool
    ensures { Decides result (Ascending code_order (map (λ x. x) countries.now)) }
{
    is_ascending(countries)
}

pub fn enter_country(
    table: &mut Table<Country, &mut [Country]>,
    country: Country,
) -> Result<usize, NotEntered>
    ensures lent { table.new.rows.ghost_name ≡ table.old.rows.ghost_name }
    ensures count { table.new.used ≡ used_after table.old.used result }
    ensures rows { Inserts code_order (λ x. x) table.old.used table.old.rows.now country table.new.rows.now result }
    ensures key { Tells code_order (keys (λ x. x) table.old.used table.old.rows.now) country result }
{
    table.insert(country)
}
