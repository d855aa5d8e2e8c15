// The built sheets over reports that are read from slips: what is found at each field, and which sheets are read.
#![tactic(auto)]

#[cfg(test)]
mod alone;
#[cfg(test)]
mod conditions;
#[cfg(test)]
mod pairs;
#[cfg(test)]
mod read;
#[cfg(test)]
mod rows;
#[cfg(test)]
mod tabled;
#[cfg(test)]
mod tolerances;
