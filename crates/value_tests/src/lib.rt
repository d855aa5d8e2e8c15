// The values of a report at work: days, times, letters, parties and texts of the host. Each table is a constant that
// a test goes over by reference, since a test is proved too, and an array of its own costs time for each row.
#![tactic(auto)]

#[cfg(test)]
mod business_days;
#[cfg(test)]
mod dates;
#[cfg(test)]
mod letters;
#[cfg(test)]
mod parties;
#[cfg(test)]
mod times;
