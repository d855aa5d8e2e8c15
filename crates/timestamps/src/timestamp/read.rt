// Reads a timestamp from text, and writes it.
ghost use Rattle.std.specs.Prelude.{◌≡◌, IfOk, Some, codes};
ghost use Rattle.std.specs.Option.{option_map};
ghost use Rattle.std.specs.Result.{result_ok};
ghost use Rattle.timestamps.specs.Times.{ReadsTimestamp, timestamp_of, timestamp_text};
ghost use Rattle.timestamps.specs.Timestamps.{instant};

use super::Timestamp;
use super::clock::TimeOfDay;
use calendar::date::Date;
use std::error::Error;
use std::fmt;

// The text names no second of a day from 2000-01-01 to 2099-12-31.
#[derive(Clone, Copy, Debug, PartialEq, Eq)]
pub struct NotATimestamp;

impl fmt::Display for NotATimestamp {
    ghost output = { λ _. Some (codes "no second of a day from 2000-01-01 to 2099-12-31") };

    fn fmt<W: fmt::Write>(&self, f: &mut fmt::Formatter<W>) -> fmt::Result {
        f.write_str("no second of a day from 2000-01-01 to 2099-12-31")
    }
}

impl Error for NotATimestamp {}

impl Timestamp {
    // The instant that a text names as YYYY-MM-DDThh:mm:ssZ. `read` and no `TryFrom`, as at every value.
    #[tactic(auto, using(std::proofs::lemmas::Bool::Decides::nat_tests), unfolding(crate::specs::Times::timestamp_of))]
    pub fn read(text: &[u8]) -> Result<Timestamp, NotATimestamp>
        ensures value { option_map instant (result_ok result) ≡ timestamp_of text.now }
        ensures plain { ReadsTimestamp text.now (option_map instant (result_ok result)) }
        ensures one_text { IfOk result (λ t. text.now ≡ timestamp_text (instant t)) }
    {
        // by place: a slice pattern has one `..`, and two parts of the text have a fixed length
        if text.len() != 20 || text[10] != b'T' || text[19] != b'Z' {
            return Err(NotATimestamp);
        }
        let date = Date::read(&text[0..10]).map_err(|_| NotATimestamp)?;
        let time = TimeOfDay::read(&text[11..19]).ok_or(NotATimestamp)?;
        Ok(Timestamp { date, time })
    }

    // The instant as YYYY-MM-DDThh:mm:ssZ.
    pub fn text(self) -> [u8; 20]
        ensures text { result ≡ timestamp_text (instant self) }
        ensures reads_back { timestamp_of result ≡ Some (instant self) }
    {
        let mut text = *b"YYYY-MM-DDThh:mm:ssZ";
        text[0..10].copy_from_slice(&self.date.text());
        text[11..19].copy_from_slice(&self.time.text());
        text
    }
}
