// What comparing two amounts comes to.
use amounts::amount::Amount;
use refusals::refusal::Refusal;

// The field whose check compares two amounts. An enum and no closure: the verb that is read picks the comparison, the
// tag and the printed word together.
#[derive(Clone, Copy, Debug)]
pub enum AmountCheck {
    // a price, under the one-percent check
    Price,
    // a notional, under the whole-number check
    Notional,
}

// One of two texts that are compared.
#[derive(Clone, Copy, Debug)]
pub enum Side {
    First,
    Second,
}

// Two amounts, and whether they match.
#[derive(Clone, Copy)]
pub enum Comparison {
    Matches(Amount, Amount),
    Differs(Amount, Amount),
}

// Why one of the texts was sent back.
#[derive(Clone, Copy, Debug)]
pub struct SentBack {
    pub refusal: Refusal,
    pub side: Side,
}
