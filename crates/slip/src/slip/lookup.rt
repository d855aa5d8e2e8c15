// What a slip has in its fields.
ghost use Rattle.std.specs.Prelude.{◌≡◌, length};
ghost use Rattle.std.specs.Option.{option_map};
ghost use Rattle.refusals.specs.Words.{tag_number};
ghost use Rattle.slip.specs.Fields.{field_named, field_of, fields_left, fields_of};

use super::{Fields, Slip};
use crate::field::Field;
use refusals::tag::Tag;

impl<'s> Slip<'s> {
    // How many fields the slip has.
    #[tactic(auto, using(crate::proofs::Cutting::as_many))]
    pub fn field_count(&self) -> usize
        ensures { result ≡ length (fields_of self.now) }
    {
        self.tags.len()
    }

    // The fields, by rising tags.
    pub fn fields(&self) -> Fields<'s>
        ensures { fields_left result ≡ fields_of self.now }
    {
        Fields {
            tags: self.tags,
            ends: self.ends,
            text: self.text,
            last: 0,
            place: 0,
        }
    }

    // The field that a tag names, if the slip has it.
    pub fn field(&self, tag: Tag) -> Option<Field<'s>>
        ensures { option_map field_of result ≡ field_named (tag_number tag) (fields_of self.now) }
    {
        let number = u8::from(tag);
        self.fields().find(|field| u8::from(field.tag()) == number)
    }
}
