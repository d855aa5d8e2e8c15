// Where the lines of a journal come from.
ghost use Rattle.std.specs.Prelude.{◌≡◌, [], IfOk, OnOk, length, nat_lt};
ghost use Rattle.journal.specs.Lines.{after_line};

use std::env::Args;
use std::fs;
use std::fs::File;
use std::io::{BufRead, BufReader, Stdin};
use std::iter::{Peekable, Skip};

// The words behind the program's name.
pub type Names = Peekable<Skip<Args>>;

// Standard input, or the files that are named.
#[derive(Drop)]
pub enum Source {
    Typed(BufReader<Stdin>),
    Filed(Files),
}

impl Source {
    pub fn typed(rt: &HostRuntime) -> anyhow::Result<Source> {
        Ok(Source::Typed(BufReader::new(rt.alloc(), rt.stdin())?))
    }

    pub fn filed(names: Names) -> Source {
        Source::Filed(Files {
            names,
            open: None,
            all_read: true,
        })
    }

    // Puts the next line, with its line feed, in the place of what is there: one line and nothing behind it. False where
    // there is none.
    pub fn next_line(&mut self, rt: &HostRuntime, line: &mut Vec<u8>) -> anyhow::Result<bool>
        ensures one { OnOk result (after_line line.new.items ≡ []) }
        ensures told { IfOk result (λ more. more ≡ nat_lt 0 (length line.new.items)) }
    {
        match self {
            Source::Typed(reader) => read_line(reader, line),
            Source::Filed(files) => files.next_line(rt, line),
        }
    }

    // Whether no whole line is here yet, so that somebody may wait for the answers to those before it.
    pub fn is_awaited(&self) -> bool {
        match self {
            Source::Typed(reader) => !has_line(reader.buffer()),
            Source::Filed(files) => files.is_awaited(),
        }
    }

    // Whether every file so far could be read.
    pub fn is_read(&self) -> bool {
        match self {
            Source::Typed(_) => true,
            Source::Filed(files) => files.all_read,
        }
    }
}

fn has_line(text: &[u8]) -> bool {
    text.contains(&b'\n')
}

// Puts a reader's next line in the place of what is there.
fn read_line<R: BufRead>(reader: &mut R, line: &mut Vec<u8>) -> anyhow::Result<bool>
    ensures one { OnOk result (after_line line.new.items ≡ []) }
    ensures told { IfOk result (λ more. more ≡ nat_lt 0 (length line.new.items)) }
{
    line.clear();
    Ok(reader.read_until(b'\n', line)? > 0)
}

// Files, one behind the other, since a book lives on from file to file.
#[derive(Drop)]
pub struct Files {
    // of those that come
    names: Names,
    // the one that is read
    open: Option<OpenFile>,
    // a flag and no error, since the others are run all the same
    all_read: bool,
}

#[derive(Drop)]
struct OpenFile {
    name: String,
    reader: BufReader<File>,
}

impl Files {
    fn is_awaited(&self) -> bool {
        match &self.open {
            Some(file) => !has_line(file.reader.buffer()),
            None => true,
        }
    }

    // The next line of the file that is read, or the first of the next one that has any. One that ends within a line ends
    // that line.
    fn next_line(&mut self, rt: &HostRuntime, line: &mut Vec<u8>) -> anyhow::Result<bool>
        ensures one { OnOk result (after_line line.new.items ≡ []) }
        ensures told { IfOk result (λ more. more ≡ nat_lt 0 (length line.new.items)) }
    {
        line.clear();
        for _ in 0..u64::MAX {
            if self.read_on(rt, line)? {
                return Ok(true);
            }
            let Some(name) = self.names.next() else {
                return Ok(false);
            };
            self.open_file(rt, name)?;
        }
        Ok(false)
    }

    // The next line of the file that is read; a file that has none, or cannot be read on, is left.
    fn read_on(&mut self, rt: &HostRuntime, line: &mut Vec<u8>) -> anyhow::Result<bool>
        ensures one { OnOk result (after_line line.new.items ≡ []) }
        ensures told { IfOk result (λ more. more ≡ nat_lt 0 (length line.new.items)) }
    {
        line.clear();
        let Some(mut file) = self.open.take() else {
            return Ok(false);
        };
        match read_line(&mut file.reader, line) {
            Ok(false) => Ok(false),
            Ok(true) => {
                self.open = Some(file);
                Ok(true)
            }
            Err(_) => {
                line.clear();
                self.tell_unread(rt, file.name.as_str())?;
                Ok(false)
            }
        }
    }

    fn open_file(&mut self, rt: &HostRuntime, name: String) -> anyhow::Result<()> {
        match fs::open(rt, name.as_str()) {
            Ok(file) => {
                let reader = BufReader::new(rt.alloc(), file)?;
                self.open = Some(OpenFile { name, reader });
                Ok(())
            }
            Err(_) => self.tell_unread(rt, name.as_str()),
        }
    }

    // Names a file that cannot be read.
    fn tell_unread(&mut self, rt: &HostRuntime, name: &str) -> anyhow::Result<()> {
        self.all_read = false;
        eprintln!(rt; "recon: cannot read {name}")?;
        Ok(())
    }
}
