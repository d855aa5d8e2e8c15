// Whether tags and ends rise and fit a text.
ghost use Rattle.std.specs.Prelude.{◌≡◌};
ghost use Rattle.std.specs.Option.{is_some};
ghost use Rattle.slip.specs.Layout.{fields_from, may_follow};

const LAST_TAG: u8 = 25;

fn may_follow(size: usize, last: u8, place: usize, tag: u8, end: usize) -> bool
    ensures { result ≡ may_follow size last place tag end }
{
    last < tag && tag <= LAST_TAG && place < end && end <= size
}

// Whether tags and ends are a slip's with this text.
pub fn fit(tags: &[u8], ends: &[[u8; 2]], text: &[u8]) -> bool
    ensures { result ≡ is_some (fields_from text.now 0 0 tags.now ends.now) }
{
    if tags.len() != ends.len() {
        return false;
    }
    let mut last = 0;
    let mut place = 0;
    for (tag, end) in tags.iter().zip(ends) {
        let end = usize::from(u16::from_be_bytes(*end));
        if !may_follow(text.len(), last, place, *tag, end) {
            return false;
        }
        last = *tag;
        place = end;
    }
    place == text.len()
}
