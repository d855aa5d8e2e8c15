// A slip's parts.
ghost use Rattle.std.specs.Prelude.{◌≡◌, ◌≤◌, true, length};
ghost use Rattle.std.specs.Option.{is_some};
ghost use Rattle.slip.specs.Layout.{fields_from};

pub mod lookup;
pub mod read;
pub mod walk;
pub mod write;

// A slip: for each field a tag and the end of its text, and the texts one behind the other.
#[derive(Clone, Copy)]
pub struct Slip<'s> {
    pub(crate) tags: &'s [u8],
    pub(crate) ends: &'s [[u8; 2]],
    pub(crate) text: &'s [u8],
    ghost whole: { is_some (fields_from text.now 0 0 tags.now ends.now) ≡ true },
    ghost short: { length text.now ≤ 512 },
}

// The fields of a slip that are still to come, by rising tags.
#[derive(Clone, Copy)]
pub struct Fields<'s> {
    tags: &'s [u8],
    ends: &'s [[u8; 2]],
    text: &'s [u8],
    // the tag of the field before, and where its text ends
    last: u8,
    place: usize,
    ghost whole: { is_some (fields_from text.now last place tags.now ends.now) ≡ true },
}
