// Walking over the fields of a slip.
ghost use Rattle.std.specs.Iterator.{YieldsFirstBy, item_count};
ghost use Rattle.slip.specs.Fields.{field_of, fields_left};

use super::Fields;
use crate::field::{Field, Part};
use refusals::tag::Tag;

impl<'s> Iterator for Fields<'s> {
    type Item = Field<'s>;

    ghost next_gives = { YieldsFirstBy field_of fields_left };

    ghost remaining = { item_count fields_left };

    fn next(&mut self) -> Option<Field<'s>> {
        let Fields {
            text,
            last,
            place,
            ..
        } = *self;
        let [tag, tags @ ..] = self.tags else {
            return None;
        };
        let [end, ends @ ..] = self.ends else {
            return None;
        };
        let end = usize::from(u16::from_be_bytes(*end));
        let part = Part {
            text: &text[place..end],
            place,
        };
        let field = Field::new(Tag::of_number(*tag)?, part);
        *self = Fields {
            tags,
            ends,
            text,
            last: *tag,
            place: end,
        };
        Some(field)
    }
}
