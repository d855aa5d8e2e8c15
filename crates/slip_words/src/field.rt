// A field that a word spells.
ghost use Rattle.std.specs.Prelude.{◌≡◌, ◌≤◌, length, IfSome};
ghost use Rattle.std.specs.List.{after_first, before_first, list_any, position_or_len};
ghost use Rattle.std.specs.Option.{is_some, option_map};
ghost use Rattle.slip_words.specs.Spelled.{equals_sign, field_spelled, tag_spelled};
ghost use Rattle.slip_words.specs.Tagged.{tagged};

use texts::ascii::as_str;
use texts::digits::Digits;

// A tag and its text, in any order among other fields and as long as they may be.
#[derive(Clone, Copy)]
pub struct SpelledField<'w> {
    pub tag: u8,
    pub text: &'w [u8],
}

// Whether a word is to be read as a field.
pub fn has_equals_sign(word: &[u8]) -> bool
    ensures { result ≡ list_any equals_sign word.now }
{
    word.iter().any(|b| *b == b'=')
}

#[tactic(auto, using(crate::proofs::Words::tag_parsed))]
fn read_tag(text: &[u8]) -> Option<u8>
    ensures { result ≡ tag_spelled text.now }
{
    let digits = Digits::new(text)?;
    as_str(digits.bytes()).parse().ok()
}

// How many bytes stand before the first equals sign.
fn tag_len(word: &[u8]) -> usize
    ensures value { result ≡ position_or_len equals_sign word.now }
    ensures within { result ≤ length word.now }
{
    word.iter().take_while(|b| **b != b'=').count()
}

// What stands before the first equals sign of a word, and what behind it.
#[tactic(auto, using(crate::proofs::Words::any_placed, crate::proofs::Words::behind_sign))]
fn split_at_sign(word: &[u8]) -> Option<(&[u8], &[u8])>
    ensures sign { is_some result ≡ list_any equals_sign word.now }
    ensures parts { IfSome result (λ p. (p.0.now ≡ before_first equals_sign word.now) × (p.1.now ≡ after_first equals_sign word.now)) }
{
    let (front, rest) = word.split_at(tag_len(word));
    match rest {
        [] => None,
        [_, behind @ ..] => Some((front, behind)),
    }
}

// The field that a word spells, if it spells one.
pub fn read_field(word: &[u8]) -> Option<SpelledField>
    ensures { option_map tagged result ≡ field_spelled word.now }
{
    let (tag, text) = split_at_sign(word)?;
    let tag = read_tag(tag)?;
    Some(SpelledField { tag, text })
}
