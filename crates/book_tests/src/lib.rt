// A book as its host sees it: what its calls answer one after the other, and what they leave of the host's rows.
#![tactic(auto)]

#[cfg(test)]
mod example;
pub mod host;
#[cfg(test)]
mod limits;
#[cfg(test)]
mod sides;
