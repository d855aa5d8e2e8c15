// Reads a report from a slip.
ghost use Rattle.std.specs.Prelude.{◌≡◌, ◌∷◌, [], IfOk, IfErr, Some, is_err};
ghost use Rattle.std.specs.Option.{option_map};
ghost use Rattle.std.specs.Result.{result_err};
ghost use Rattle.fields.specs.Fields.{action_letter, level_letter, level_letters};
ghost use Rattle.fields.specs.Letters.{letter_in};
ghost use Rattle.refusals.specs.Words.{parts_of};
ghost use Rattle.refusals.specs.declared.refusal.Refusal.TheVariants.{BadField};
ghost use Rattle.refusals.specs.declared.tag.Tag.TheVariants.{Action as ActionTag, Level as LevelTag};
ghost use Rattle.slip.specs.Fields.{fields_of};
ghost use Rattle.report.specs.Judging.{AllThere, all_tags, always_needed, bad, first_bad, fields_told, needed_by_letter, refusal_of};
ghost use Rattle.report.specs.Texts.{Says, text_in};
ghost use Rattle.report.specs.Values.{Tells};

use super::Report;
use crate::details::Details;
use crate::parties::Parties;
use crate::presence::{ALWAYS_NEEDED, needed_by, require};
use crate::values::{amount, date, letter};
use fields::field::report::{Action, Level};
use refusals::refusal::Refusal;
use refusals::tag::Tag;
use slip::slip::Slip;

// The level of a report. A trade that goes into a position is reported at the level of trades.
fn read_level(slip: &Slip, action: Action) -> Result<Option<Level>, Refusal>
    ensures value { IfOk result (Says (letter_in level_letters) level_letter (text_in (fields_of slip.now) LevelTag)) }
    ensures bad { text_in (fields_of slip.now) ActionTag ≡ Some (action_letter action ∷ []) → is_err result ≡ bad (text_in (fields_of slip.now)) LevelTag }
    ensures refusal { IfErr result (λ e. e ≡ BadField LevelTag) }
{
    let level = letter(slip, Tag::Level)?;
    match (action, level) {
        (Action::PositionComponent, Some(Level::Position)) => Err(Refusal::BadField(Tag::Level)),
        _ => Ok(level),
    }
}

// The report of a slip that has what this action needs; the first bad field is refused.
fn read_fields(slip: &Slip, action: Action) -> Result<Report, Refusal>
    requires action { text_in (fields_of slip.now) ActionTag ≡ Some (action_letter action ∷ []) }
    requires always { AllThere (text_in (fields_of slip.now)) always_needed }
    requires needed { AllThere (text_in (fields_of slip.now)) (needed_by_letter (action_letter action)) }
    ensures value { IfOk result (Tells (text_in (fields_of slip.now))) }
    ensures refusal { result_err result ≡ option_map BadField (first_bad (text_in (fields_of slip.now)) all_tags) }
{
    let parties = Parties::read(slip)?;
    let level = read_level(slip, action)?;
    let eligible = date(slip, Tag::EligibleDate)?;
    let details = Details::read(slip)?;
    let valuation = amount(slip, Tag::Valuation)?;
    Ok(Report {
        parties,
        action,
        level,
        eligible,
        details,
        valuation,
    })
}

// The action of a slip that has what every report needs.
fn read_action(slip: &Slip) -> Result<Action, Refusal>
    requires { AllThere (text_in (fields_of slip.now)) always_needed }
    ensures value { IfOk result (λ a. text_in (fields_of slip.now) ActionTag ≡ Some (action_letter a ∷ [])) }
    ensures bad { is_err result ≡ bad (text_in (fields_of slip.now)) ActionTag }
    ensures refusal { IfErr result (λ e. e ≡ BadField ActionTag) }
{
    letter(slip, Tag::Action)?.ok_or(Refusal::FieldMissing(Tag::Action))
}

impl Report {
    // The report that the bytes of a slip are. What is told of bytes that are none is settled in this order: the layout,
    // the fields that every report needs, the action, the fields that it needs, and every text that is there.
    pub fn read(bytes: &[u8]) -> Result<Report, Refusal>
        ensures value { IfOk result (λ r. Tells (text_in (fields_told bytes.now)) r) }
        ensures refusal { option_map parts_of (result_err result) ≡ refusal_of bytes.now }
    {
        let Ok(slip) = Slip::read(bytes) else {
            return Err(Refusal::TornSlip);
        };
        require(&slip, ALWAYS_NEEDED)?;
        let action = read_action(&slip)?;
        require(&slip, needed_by(action))?;
        read_fields(&slip, action)
    }
}
