// The first line of a journal, and the first word of a line.
ghost use Rattle.std.specs.Prelude.{◌≡◌, ◌<◌, ◌≤◌, length};
ghost use Rattle.std.specs.Iterator.{at_most};
ghost use Rattle.std.specs.List.{prefix_len};
ghost use Rattle.std.specs.Option.{option_copied};
ghost use Rattle.journal.specs.Bytes.{blank, in_line, in_word};
ghost use Rattle.journal.specs.Lines.{after_line, after_word, first_line, first_word, YieldsLine};

// Three chains and no function over the test: its clause on the closure is longer than a chain. `within` stands at
// each for the split that follows.
fn line_len(text: &[u8]) -> usize
    ensures value { result ≡ prefix_len in_line text.now }
    ensures within { result ≤ length text.now }
{
    text.iter().take_while(|b| **b != b'\n').count()
}

fn is_blank(byte: u8) -> bool
    ensures { result ≡ blank byte }
{
    byte == b' ' || byte == b'\t'
}

fn blanks_len(line: &[u8]) -> usize
    ensures value { result ≡ prefix_len blank line.now }
    ensures within { result ≤ length line.now }
{
    line.iter().take_while(|b| is_blank(**b)).count()
}

fn word_len(line: &[u8]) -> usize
    ensures value { result ≡ prefix_len in_word line.now }
    ensures within { result ≤ length line.now }
{
    line.iter().take_while(|b| !is_blank(**b)).count()
}

// The first line, without its line feed or carriage return, and what follows it.
pub fn first_line(text: &[u8]) -> (&[u8], &[u8])
    ensures line { result.0.now ≡ first_line text.now }
    ensures rest { result.1.now ≡ after_line text.now }
    ensures shorter { 0 < length text.now → length result.1.now < length text.now }
{
    let (line, rest) = text.split_at(line_len(text));
    let line = line.strip_suffix(b"\r").unwrap_or(line);
    match rest {
        [] => (line, rest),
        [_, after @ ..] => (line, after),
    }
}

// The lines of a journal, first to last.
#[derive(Drop)]
pub struct Lines<'a>(pub &'a [u8]);

impl<'a> Iterator for Lines<'a> {
    type Item = &'a [u8];

    ghost next_gives = { λ s r t. YieldsLine s.0.now (option_copied r) t.0.now };

    ghost remaining = { λ s. at_most (length s.0.now) };

    fn next(&mut self) -> Option<&'a [u8]> {
        if self.0.is_empty() {
            return None;
        }
        let (line, rest) = first_line(self.0);
        self.0 = rest;
        Some(line)
    }
}

// The first word of a line, empty where none is left, and what follows it.
pub fn first_word(line: &[u8]) -> (&[u8], &[u8])
    ensures word { result.0.now ≡ first_word line.now }
    ensures rest { result.1.now ≡ after_word line.now }
    ensures shorter { 0 < length result.0.now → length result.1.now < length line.now }
{
    let (_, rest) = line.split_at(blanks_len(line));
    rest.split_at(word_len(rest))
}
