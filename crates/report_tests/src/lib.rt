// Reports read from slips and written as slips: what is refused and what for, what is read, and what is written. Each
// table is a constant that a test goes over by reference, since a test is proved too, and an array of its own costs time
// for each row.
#![tactic(auto)]

#[cfg(test)]
mod actions;
#[cfg(test)]
mod bad;
#[cfg(test)]
mod limits;
#[cfg(test)]
mod missing;
#[cfg(test)]
mod order;
#[cfg(test)]
mod said;
#[cfg(test)]
mod slips;
#[cfg(test)]
mod written;
