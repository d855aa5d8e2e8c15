// Reading a slip.
ghost use Rattle.std.specs.Prelude.{◌≡◌, ◌≤◌, List, Some, codes, length};
ghost use Rattle.std.specs.Option.{option_map};
ghost use Rattle.std.specs.Result.{result_ok};
ghost use Rattle.slip.specs.Fields.{fields_of};
ghost use Rattle.slip.specs.Layout.{FieldParts, IsSlip, fields_behind, fields_from, fields_in, Reads};

use super::Slip;
use crate::check::fit;
use std::error::Error;
use std::fmt;

pub(crate) const MOST_FIELDS: usize = 25;

pub(crate) const MOST_TEXT: usize = 512;

// Bytes that are not laid out as a slip.
#[derive(Clone, Copy, Debug, PartialEq, Eq)]
pub struct NotASlip;

impl fmt::Display for NotASlip {
    ghost output = { λ _. Some (codes "not laid out as a slip") };

    fn fmt<W: fmt::Write>(&self, f: &mut fmt::Formatter<W>) -> fmt::Result {
        f.write_str("not laid out as a slip")
    }
}

impl Error for NotASlip {}

impl<'s> Slip<'s> {
    // The slip of these parts, if they fit one another.
    fn new(tags: &'s [u8], ends: &'s [[u8; 2]], text: &'s [u8]) -> Option<Slip<'s>>
        requires { length text.now ≤ 512 }
        ensures { option_map fields_of result ≡ fields_from text.now 0 0 tags.now ends.now }
    {
        if fit(tags, ends, text) {
            Some(Slip { tags, ends, text })
        } else {
            None
        }
    }

    // The slip of n fields and t bytes of text that follows its sizes.
    fn behind(n: usize, t: usize, rest: &'s [u8]) -> Option<Slip<'s>>
        ensures { option_map fields_of result ≡ fields_behind n t rest.now }
    {
        if n > MOST_FIELDS || t > MOST_TEXT || rest.len() != 3 * n + t {
            return None;
        }
        let (tags, rest) = rest.split_at(n);
        let (ends, text) = rest.split_at(2 * n);
        let (ends, _) = ends.as_chunks();
        Slip::new(tags, ends, text)
    }

    // The slip that the bytes are, if they are laid out as one.
    pub fn read(bytes: &'s [u8]) -> Result<Slip<'s>, NotASlip>
        ensures value { option_map fields_of (result_ok result) ≡ fields_in bytes.now }
        ensures plain { Reads bytes.now (option_map fields_of (result_ok result)) }
        ensures sole { (fields : List FieldParts) → IsSlip bytes.now fields → option_map fields_of (result_ok result) ≡ Some fields }
    {
        let [n, high, low, rest @ ..] = bytes else {
            return Err(NotASlip);
        };
        let t = u16::from_be_bytes([*high, *low]);
        Slip::behind(usize::from(*n), usize::from(t), rest).ok_or(NotASlip)
    }
}
