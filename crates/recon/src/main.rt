// recon: answers the calls of a journal, one line after the other.
#![tactic(auto)]

mod run;
mod source;
#[cfg(test)]
mod tests;

use rows::row::Row;
use rules::room::MOST_ROWS;
use run::Run;
use source::Source;
use std::io::{BufWriter, Write};
use std::process::ExitCode;
use std::{env, io};
use verbs::shelf::Shelf;

const VERSION: &str = "recon: a proved reconciliation book for two-sided derivative reports
proved with rattle-kit-13f logic dac8208d650f15bf";

const HELP: &str = "recon reads a journal, a call on each line, and tells what each call did.

  recon FILE..      the files, one behind the other
  recon             standard input
  recon --help      this
  recon --version   what it is, and what it was proved with

The calls: price, notional, day, slip, write, sheet, compare, open, register, countries, report,
close, lookup, rows. Every line is answered before the next one is waited for, behind its number.
README.md tells how to begin, docs/RULES.md what each call takes and answers, and every rule.
Status 1: a line was no call, or a file could not be read.";

// What the words behind the program's name ask for.
#[derive(Clone, Copy)]
enum Task {
    Help,
    Version,
    Typed,
    Filed,
}

fn task_of(first: Option<&String>) -> Task {
    let Some(first) = first else {
        return Task::Typed;
    };
    match first.as_str() {
        "--help" => Task::Help,
        "--version" => Task::Version,
        _ => Task::Filed,
    }
}

// Ends with status 1, silently where the answers have told why: some line was no call, or a file could not be read.
fn main(rt: HostRuntime) -> anyhow::Result<ExitCode> {
    let mut names = env::args(&rt)?.skip(1).peekable();
    match task_of(names.peek()) {
        Task::Help => tell(&rt, HELP),
        Task::Version => tell(&rt, VERSION),
        Task::Typed => run_source(&rt, Source::typed(&rt)?),
        Task::Filed => run_source(&rt, Source::filed(names)),
    }
}

fn tell(rt: &HostRuntime, text: &str) -> anyhow::Result<ExitCode> {
    println!(rt; "{text}")?;
    Ok(ExitCode::SUCCESS)
}

// Runs a journal to its end, and tells whether all went well.
fn run_source(rt: &HostRuntime, mut source: Source) -> anyhow::Result<ExitCode> {
    let mut run = Run::new(rt.alloc());
    let mut out = BufWriter::new(rt.alloc(), io::writer(rt))?;
    let ran = run_journal(rt, &mut run, &mut out, &mut source);
    out.flush()?;
    ran?;
    if run.is_clean() && source.is_read() {
        Ok(ExitCode::SUCCESS)
    } else {
        Ok(ExitCode::FAILURE)
    }
}

// Runs a journal: first with no book, then with the book of each line that opens one. All books stand in the same rows,
// one after the other.
fn run_journal<W: Write>(
    rt: &HostRuntime,
    run: &mut Run,
    out: &mut W,
    source: &mut Source,
) -> anyhow::Result<()> {
    let mut rows = vec![in rt.alloc(); Row::blank(); MOST_ROWS]?;
    let mut asked = run.run_lines(rt, out, &mut Shelf::Empty, source)?;
    for _ in 0..u64::MAX {
        let Some(opening) = asked else {
            return Ok(());
        };
        let mut shelf = Shelf::Holds(opening.open(rows.as_mut_slice()));
        asked = run.run_lines(rt, out, &mut shelf, source)?;
    }
    Ok(())
}
