// A row of a kind made for tests, with a key of three parts.
use codes::code::{ClientCode, Lei, TradeId};

// Keys compare by the trade's name, then by the party that reports, then by the other.
#[derive(Clone, Copy)]
#[derive_where(PartialEq, Eq, PartialOrd, Ord)]
pub struct SampleKey {
    pub trade: TradeId,
    pub reporting: Lei,
    pub other: ClientCode,
}

#[derive(Clone, Copy)]
pub struct Sample {
    pub key: SampleKey,
    pub done: bool,
    pub mark: u32,
}

// A key that has an order and no equality: a table asks for no more.
#[derive(Clone, Copy)]
pub struct Number {
    pub value: u32,
}

#[derive(Clone, Copy)]
pub struct Numbered {
    pub number: Number,
    pub mark: u32,
}

// A key with the library's order, and with another by which its rows stand: the highest first.
#[derive(Clone, Copy, PartialEq, Eq, PartialOrd, Ord)]
pub struct Priority {
    pub level: u32,
}

#[derive(Clone, Copy)]
pub struct Ticket {
    pub priority: Priority,
    pub mark: u32,
}
