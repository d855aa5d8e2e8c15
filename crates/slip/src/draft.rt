// A slip in the making.
ghost use Rattle.std.specs.Prelude.{◌≡◌, true};
ghost use Rattle.std.specs.Option.{is_some};
ghost use Rattle.slip.specs.Layout.{fields_from};

pub mod fill;

use crate::slip::read::{MOST_FIELDS, MOST_TEXT};
use arrayvec::ArrayVec;

// A slip that owns its parts. It is whole at every moment, and grows by a field at a time.
#[derive(Drop)]
pub struct Draft {
    tags: ArrayVec<u8, MOST_FIELDS>,
    ends: ArrayVec<[u8; 2], MOST_FIELDS>,
    text: ArrayVec<u8, MOST_TEXT>,
    ghost whole: { is_some (fields_from text.items 0 0 tags.items ends.items) ≡ true },
}
