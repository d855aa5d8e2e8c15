// The run of a journal, line by line.
ghost use Rattle.std.specs.Prelude.{◌≡◌, ◌+◌, ◌-◌, ◌^◌, min, true, false, ◌&&◌, IfOk, None, [], string_bytes, OnOk};
ghost use Rattle.std.specs.Option.{option_map};
ghost use Rattle.verbs.specs.Answers.{Keeps, answer_of};
ghost use Rattle.verbs.specs.Chosen.{after_line};
ghost use Rattle.verbs.specs.Settings.{setting_of};
ghost use Rattle.verbs.specs.Shelves.{Lawful};
ghost use Rattle.built_sheets.specs.Chosen.{chosen};
ghost use Rattle.recon.specs.Runs.{Prints, is_call};

use crate::source::Source;
use built_sheets::chosen::ChosenSheet;
use built_sheets::kdpw::KdpwSheet;
use desk::opening::Opening;
use journal::lines::first_line;
use std::alloc::{AllocError, Global};
use std::io::Write;
use verbs::answers::answer_line;
use verbs::fault::Fault;
use verbs::settings::Settings;
use verbs::shelf::Shelf;

// How far a run has come.
#[derive(Drop)]
pub struct Run {
    // lines so far, in all files together
    lines: u64,
    // whether every line so far was a call or one to pass over: a flag and no `Result`, since lines are counted and run
    // after a fault too
    clean: bool,
    // for the calls that follow
    settings: Settings,
}

impl Run {
    pub fn new(alloc: Global) -> Run
        ensures lines { result.lines ≡ 0 }
        ensures clean { result.clean ≡ true }
        ensures settings { setting_of result.settings ≡ record { client = None; parties = []; countries = []; opening = None } }
    {
        Run {
            lines: 0,
            clean: true,
            settings: Settings {
                sheet: ChosenSheet::Kdpw(KdpwSheet),
                parties: Vec::new(alloc),
                countries: Vec::new(alloc),
                opening: None,
            },
        }
    }

    pub fn is_clean(&self) -> bool
        ensures { result ≡ self.now.clean }
    {
        self.clean
    }

    // Notes that a line was no call.
    fn mark_failed(&mut self)
        ensures lines { self.new.lines ≡ self.old.lines }
        ensures clean { self.new.clean ≡ false }
        ensures settings { self.new.settings ≡ self.old.settings }
    {
        self.clean = false;
    }

    // Takes the next line, and gives what is printed of it.
    #[tactic(auto, using(crate::proofs::Printing::prints_none, crate::proofs::Printing::prints_some, crate::proofs::Printing::is_called, verbs::proofs::Saying::kept))]
    fn step(
        &mut self,
        alloc: Global,
        shelf: &mut Shelf<'_>,
        line: &[u8],
    ) -> Result<Option<String>, AllocError>
        ensures printed { IfOk result (λ o. Prints self.new.lines (answer_of (chosen self.old.settings.sheet) (setting_of self.old.settings) shelf.old shelf.new line.now) (option_map string_bytes o)) }
        ensures counted { self.new.lines ≡ min (self.old.lines + 1) (2 ^ 64 - 1) }
        ensures status { OnOk result (self.new.clean ≡ (self.old.clean && is_call (answer_of (chosen self.old.settings.sheet) (setting_of self.old.settings) shelf.old shelf.new line.now))) }
        ensures settings { OnOk result (setting_of self.new.settings ≡ after_line (setting_of self.old.settings) line.now) }
        ensures book { OnOk result (Keeps (answer_of (chosen self.old.settings.sheet) (setting_of self.old.settings) shelf.old shelf.new line.now) shelf.old shelf.new) }
        ensures law { OnOk result (Lawful shelf.old → Lawful shelf.new) }
    {
        self.lines = self.lines.saturating_add(1);
        let number = self.lines;
        match answer_line(alloc, &mut self.settings, shelf, line) {
            Ok(None) => Ok(None),
            Ok(Some(answer)) => Ok(Some(format!(in alloc; "{number}: {answer}")?)),
            Err(Fault::OutOfMemory(error)) => Err(error),
            Err(fault) => {
                self.mark_failed();
                Ok(Some(format!(in alloc; "{number}: ? {fault}")?))
            }
        }
    }

    // Runs lines up to one that opens a book, and tells how it is to be opened: none at the end of the journal. What a line
    // is answered is written before the next one is waited for. The book is one that runs under its own sheet, and still is.
    pub fn run_lines<W: Write>(
        &mut self,
        rt: &HostRuntime,
        out: &mut W,
        shelf: &mut Shelf<'_>,
        source: &mut Source,
    ) -> anyhow::Result<Option<Opening>>
        requires { Lawful shelf.old }
        ensures law { OnOk result (Lawful shelf.new) }
    {
        let mut line = Vec::new(rt.alloc());
        'lines: for _ in 0..u64::MAX {
            if source.is_awaited() {
                out.flush()?;
            }
            if !source.next_line(rt, &mut line)? {
                break;
            }
            let (text, behind) = first_line(line.as_slice());
            // one line at a time, so that none is lost behind another
            prove!(behind.is_empty());
            if let Some(told) = self.step(rt.alloc(), shelf, text)? {
                writeln!(out, "{told}")?;
            }
            let asked = self.settings.opening.take();
            if asked.is_some() {
                return Ok(asked);
            }
        }
        Ok(None)
    }
}

#[cfg(test)]
mod tests {
    use super::*;
    use std::test::Fail;

    #[test]
    fn lines_are_numbered_and_faults_remembered(rt: HostRuntime) -> Result<(), Fail> {
        let alloc = rt.alloc();
        let mut run = Run::new(alloc);
        let mut shelf = Shelf::Empty;
        let first = run.step(alloc, &mut shelf, b"price 1 1.005")?;
        assert!(rt; first.is_some());
        assert!(rt; run.step(alloc, &mut shelf, b"# a comment")?.is_none());
        assert!(rt; run.is_clean());
        let Some(third) = run.step(alloc, &mut shelf, b"lookup T1")? else {
            return Err(Fail::new("nothing printed"));
        };
        assert!(rt; third.as_str() == "3: ? no book is open");
        assert!(rt; !run.is_clean());
        let Some(fourth) = run.step(alloc, &mut shelf, b"price 1 1.005")? else {
            return Err(Fail::new("nothing printed"));
        };
        assert!(rt; fourth.as_str() == "4: price 1 1.005 matches");
        assert!(rt; !run.is_clean());
        Ok(())
    }
}
