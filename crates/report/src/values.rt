// Values that the fields of a slip spell. A function for each form of value: a function over readers would need a clause
// on its closure that is longer than all of them.
ghost use Rattle.std.specs.Prelude.{◌≡◌, IfOk, IfErr, IfSome, is_err};
ghost use Rattle.refusals.specs.declared.refusal.Refusal.TheVariants.{BadField};
ghost use Rattle.amounts.specs.Amounts.{worth};
ghost use Rattle.amounts.specs.Decimal.{amount_of};
ghost use Rattle.amounts.specs.Rates.{rate_worth};
ghost use Rattle.calendar.specs.Dates.{number};
ghost use Rattle.calendar.specs.Text.{date_of};
ghost use Rattle.codes.specs.Codes.{text_of};
ghost use Rattle.codes.specs.Rules.{code_of};
ghost use Rattle.fields.specs.Letters.{letter_in};
ghost use Rattle.fields.specs.Parties.{party_in, party_parts};
ghost use Rattle.slip.specs.Fields.{fields_of};
ghost use Rattle.timestamps.specs.Timestamps.{instant};
ghost use Rattle.timestamps.specs.Times.{timestamp_of};
ghost use Rattle.report.specs.Texts.{Says, text_in, unreadable};

use amounts::amount::Amount;
use amounts::amount::rate::ExchangeRate;
use calendar::date::Date;
use codes::alphabet::Alphabet;
use codes::code::Code;
use fields::field::report::PartyKind;
use fields::letter::{Letter, read_letter};
use fields::party::OtherParty;
use refusals::refusal::Refusal;
use refusals::tag::Tag;
use slip::slip::Slip;
use timestamps::timestamp::Timestamp;

pub fn letter<L: Letter>(slip: &Slip, tag: Tag) -> Result<Option<L>, Refusal>
    ensures value { IfOk result (Says (letter_in L.Letter.letters) L.Letter.told (text_in (fields_of slip.now) tag)) }
    ensures bad { is_err result ≡ unreadable (letter_in L.Letter.letters) (text_in (fields_of slip.now) tag) }
    ensures refusal { IfErr result (λ e. e ≡ BadField tag) }
{
    let Some(field) = slip.field(tag) else {
        return Ok(None);
    };
    match read_letter(field.part().text) {
        Ok(value) => Ok(Some(value)),
        Err(_) => Err(Refusal::BadField(tag)),
    }
}

pub fn code<A: Alphabet, const LEAST: usize, const MOST: usize>(
    slip: &Slip,
    tag: Tag,
) -> Result<Option<Code<A, LEAST, MOST>>, Refusal>
    ensures value { IfOk result (Says (code_of A.letters LEAST MOST) text_of (text_in (fields_of slip.now) tag)) }
    ensures bad { is_err result ≡ unreadable (code_of A.letters LEAST MOST) (text_in (fields_of slip.now) tag) }
    ensures refusal { IfErr result (λ e. e ≡ BadField tag) }
{
    let Some(field) = slip.field(tag) else {
        return Ok(None);
    };
    match Code::read(field.part().text) {
        Ok(value) => Ok(Some(value)),
        Err(_) => Err(Refusal::BadField(tag)),
    }
}

pub fn date(slip: &Slip, tag: Tag) -> Result<Option<Date>, Refusal>
    ensures value { IfOk result (Says (date_of) number (text_in (fields_of slip.now) tag)) }
    ensures bad { is_err result ≡ unreadable (date_of) (text_in (fields_of slip.now) tag) }
    ensures refusal { IfErr result (λ e. e ≡ BadField tag) }
{
    let Some(field) = slip.field(tag) else {
        return Ok(None);
    };
    match Date::read(field.part().text) {
        Ok(value) => Ok(Some(value)),
        Err(_) => Err(Refusal::BadField(tag)),
    }
}

pub fn timestamp(slip: &Slip, tag: Tag) -> Result<Option<Timestamp>, Refusal>
    ensures value { IfOk result (Says (timestamp_of) instant (text_in (fields_of slip.now) tag)) }
    ensures bad { is_err result ≡ unreadable (timestamp_of) (text_in (fields_of slip.now) tag) }
    ensures refusal { IfErr result (λ e. e ≡ BadField tag) }
{
    let Some(field) = slip.field(tag) else {
        return Ok(None);
    };
    match Timestamp::read(field.part().text) {
        Ok(value) => Ok(Some(value)),
        Err(_) => Err(Refusal::BadField(tag)),
    }
}

pub fn amount(slip: &Slip, tag: Tag) -> Result<Option<Amount>, Refusal>
    ensures value { IfOk result (Says (amount_of 20) worth (text_in (fields_of slip.now) tag)) }
    ensures bad { is_err result ≡ unreadable (amount_of 20) (text_in (fields_of slip.now) tag) }
    ensures refusal { IfErr result (λ e. e ≡ BadField tag) }
{
    let Some(field) = slip.field(tag) else {
        return Ok(None);
    };
    match Amount::read(field.part().text) {
        Ok(value) => Ok(Some(value)),
        Err(_) => Err(Refusal::BadField(tag)),
    }
}

pub fn rate(slip: &Slip, tag: Tag) -> Result<Option<ExchangeRate>, Refusal>
    ensures value { IfOk result (Says (amount_of 10) rate_worth (text_in (fields_of slip.now) tag)) }
    ensures bad { is_err result ≡ unreadable (amount_of 10) (text_in (fields_of slip.now) tag) }
    ensures refusal { IfErr result (λ e. e ≡ BadField tag) }
{
    let Some(field) = slip.field(tag) else {
        return Ok(None);
    };
    match ExchangeRate::read(field.part().text) {
        Ok(value) => Ok(Some(value)),
        Err(_) => Err(Refusal::BadField(tag)),
    }
}

#[tactic(auto, using(crate::proofs::PartyKinds::kind_kept))]
pub fn party(slip: &Slip, tag: Tag, kind: PartyKind) -> Result<Option<OtherParty>, Refusal>
    ensures value { IfOk result (Says (party_in kind) party_parts (text_in (fields_of slip.now) tag)) }
    ensures kind { IfOk result (λ party. IfSome party (λ p. (party_parts p).kind ≡ kind)) }
    ensures bad { is_err result ≡ unreadable (party_in kind) (text_in (fields_of slip.now) tag) }
    ensures refusal { IfErr result (λ e. e ≡ BadField tag) }
{
    let Some(field) = slip.field(tag) else {
        return Ok(None);
    };
    match OtherParty::read(kind, field.part().text) {
        Ok(value) => Ok(Some(value)),
        Err(_) => Err(Refusal::BadField(tag)),
    }
}
