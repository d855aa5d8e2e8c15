// table_bench: what it costs to enter rows of a report's size into the ordered table.
#![tactic(auto)]

mod entering;
mod report;

use crate::entering::enter_all;
use crate::report::{Report, report_of, scattered_reports};
use std::env;
use std::time::Instant;

// Takes how many rows are entered, and in how many rounds. Times go to standard error, so that standard output has
// only what is the same on every machine.
fn main(rt: HostRuntime) -> anyhow::Result<()> {
    let mut arguments = env::args(&rt)?.skip(1);
    let count = number_or(arguments.next(), 4_096)?;
    let rounds = number_or(arguments.next(), 1)?;
    let reports = scattered_reports(rt.alloc(), count)?;
    let mut rows = Vec::new(rt.alloc());
    for _ in 0..rounds {
        rows = run_round(&rt, reports.as_slice())?;
    }
    let used = rows.len();
    let sum = checksum(rows.as_slice());
    println!(rt; "{used} rows, checksum {sum}")?;
    Ok(())
}

// The number that an argument spells, or the other where there is none.
fn number_or(argument: Option<String>, other: u32) -> anyhow::Result<u32> {
    match argument {
        Some(text) => Ok(text.as_str().parse::<u32>()?),
        None => Ok(other),
    }
}

// Enters the reports into as many blank rows, prints the microseconds that it took, and gives the rows. The blanks are
// written before the clock starts, so that no new page of memory is counted.
fn run_round(rt: &HostRuntime, reports: &[Report]) -> anyhow::Result<Vec<Report>> {
    let blank = report_of(rt.alloc(), 0)?;
    let mut rows = vec![in rt.alloc(); blank; reports.len()]?;
    let start = Instant::now(rt)?;
    enter_all(rows.as_mut_slice(), reports)?;
    let microseconds = start.elapsed(rt)?.as_micros();
    eprintln!(rt; "{microseconds}")?;
    Ok(rows)
}

// A number that differs where the rows stand in another order.
fn checksum(rows: &[Report]) -> u64 {
    rows.iter().fold(0, |sum: u64, row| {
        sum.wrapping_mul(31).wrapping_add(u64::from(row.number))
    })
}
