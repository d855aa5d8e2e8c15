// Putting a slip together, a field at a time.
ghost use Rattle.std.specs.Prelude.{◌≡◌, ◌≤◌, true, cond, [], Some, codes, is_ok};
ghost use Rattle.refusals.specs.Words.{tag_number};
ghost use Rattle.slip.specs.Drafts.{fields_drafted, last_tag, may_be_put, with_field};
ghost use Rattle.slip.specs.Fields.{fields_of};

use super::Draft;
use crate::slip::Slip;
use arrayvec::ArrayVec;
use refusals::tag::Tag;
use std::error::Error;
use std::fmt;

// A field that may not stand behind the others.
#[derive(Clone, Copy, Debug, PartialEq, Eq)]
pub struct CannotFollow;

impl fmt::Display for CannotFollow {
    ghost output = { λ _. Some (codes "field may not stand behind the others") };

    fn fmt<W: fmt::Write>(&self, f: &mut fmt::Formatter<W>) -> fmt::Result {
        f.write_str("field may not stand behind the others")
    }
}

impl Error for CannotFollow {}

impl Draft {
    // A slip with no fields.
    pub fn new() -> Draft
        ensures { fields_drafted result ≡ [] }
    {
        Draft {
            tags: ArrayVec::new(),
            ends: ArrayVec::new(),
            text: ArrayVec::new(),
        }
    }

    // The tag of the last field, or 0 where there is none.
    #[tactic(auto, using(crate::proofs::Drafting::last_drafted))]
    fn last_tag(&self) -> u8
        ensures { result ≡ last_tag (fields_drafted self.now) }
    {
        self.tags.as_slice().last().copied().unwrap_or(0)
    }

    // Whether a field may stand behind the others: its tag is above theirs, its text has a byte or more, and there is
    // room for it.
    #[tactic(auto, using(crate::proofs::Drafting::texts_drafted))]
    fn may_be_put(&self, tag: u8, text: &[u8]) -> bool
        ensures { result ≡ may_be_put (fields_drafted self.now) tag text.now }
    {
        let room = self.text.remaining_capacity();
        self.last_tag() < tag && !text.is_empty() && text.len() <= room
    }

    // Puts a field behind the others.
    #[tactic(auto, using(crate::proofs::Drafting::may_mean, crate::proofs::Drafting::room_for_tag, crate::proofs::Cutting::even, crate::proofs::Drafting::field_put))]
    fn put(&mut self, tag: u8, text: &[u8])
        requires known { tag ≤ 25 }
        requires may { may_be_put (fields_drafted self.old) tag text.now ≡ true }
        ensures { fields_drafted self.new ≡ with_field (fields_drafted self.old) tag text.now }
    {
        self.text.try_extend_from_slice(text).unwrap();
        let end = self.text.len() as u16;
        self.tags.push(tag);
        self.ends.push(end.to_be_bytes());
    }

    // Puts a field behind the others if it may stand there, and else leaves the slip as it is.
    pub fn push(&mut self, tag: Tag, text: &[u8]) -> Result<(), CannotFollow>
        ensures answer { is_ok result ≡ may_be_put (fields_drafted self.old) (tag_number tag) text.now }
        ensures fields { let old = fields_drafted self.old in fields_drafted self.new ≡ cond (may_be_put old (tag_number tag) text.now) (with_field old (tag_number tag) text.now) old }
    {
        let number = u8::from(tag);
        if !self.may_be_put(number, text) {
            return Err(CannotFollow);
        }
        self.put(number, text);
        Ok(())
    }

    // The slip as it stands.
    pub fn slip(&self) -> Slip<'_>
        ensures { fields_of result ≡ fields_drafted self.now }
    {
        Slip {
            tags: self.tags.as_slice(),
            ends: self.ends.as_slice(),
            text: self.text.as_slice(),
        }
    }
}
