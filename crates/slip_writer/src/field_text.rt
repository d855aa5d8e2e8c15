// Texts of fields, held by value: as long as the longest, a name of a product.
ghost use Rattle.std.specs.Prelude.{◌≡◌, ◌≤◌, ◌∷◌, [], length};
ghost use Rattle.amounts.specs.Shortest.{shortest};
ghost use Rattle.calendar.specs.Dates.{number};
ghost use Rattle.calendar.specs.Text.{date_text};
ghost use Rattle.codes.specs.Codes.{text_of};
ghost use Rattle.timestamps.specs.Timestamps.{instant};
ghost use Rattle.timestamps.specs.Times.{timestamp_text};

use amounts::amount::Amount;
use amounts::amount::rate::ExchangeRate;
use amounts::amount::write::LONGEST;
use arrayvec::ArrayVec;
use calendar::date::Date;
use codes::alphabet::Alphabet;
use codes::code::Code;
use fields::letter::Letter;
use timestamps::timestamp::Timestamp;

// The text of a field.
pub type FieldText = ArrayVec<u8, 64>;

pub fn copied(bytes: &[u8]) -> FieldText
    requires { length bytes.now ≤ 64 }
    ensures { result.items ≡ bytes.now }
{
    let mut text = FieldText::new();
    text.try_extend_from_slice(bytes).unwrap();
    text
}

pub fn letter_text<L: Letter + Copy>(letter: L) -> FieldText
    ensures { result.items ≡ L.Letter.told letter ∷ [] }
{
    let mut text = FieldText::new();
    text.push(letter.letter());
    text
}

#[tactic(auto, using(crate::proofs::OwnTexts::code_fits))]
pub fn code_text<A: Alphabet, const LEAST: usize, const MOST: usize>(
    code: Code<A, LEAST, MOST>,
) -> FieldText
    requires { MOST ≤ 64 }
    ensures { result.items ≡ text_of code }
{
    copied(code.bytes())
}

pub fn date_text(date: Date) -> FieldText
    ensures { result.items ≡ date_text (number date) }
{
    copied(&date.text())
}

pub fn timestamp_text(timestamp: Timestamp) -> FieldText
    ensures { result.items ≡ timestamp_text (instant timestamp) }
{
    copied(&timestamp.text())
}

#[tactic(auto, using(crate::proofs::Front::text_in_front))]
pub fn amount_text(amount: Amount) -> FieldText
    ensures { result.items ≡ shortest amount }
{
    let mut buffer = [0; LONGEST];
    let len = amount.write(&mut buffer).unwrap();
    copied(&buffer[..len])
}

pub fn rate_text(rate: ExchangeRate) -> FieldText
    ensures { result.items ≡ shortest rate.amount }
{
    amount_text(rate.amount())
}
