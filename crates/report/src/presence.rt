// Which fields a report needs, and which of them a slip lacks.
ghost use Rattle.std.specs.Prelude.{◌≡◌, OnOk};
ghost use Rattle.std.specs.Result.{result_err};
ghost use Rattle.fields.specs.Fields.{action_letter};
ghost use Rattle.slip.specs.Fields.{fields_of};
ghost use Rattle.report.specs.Judging.{AllThere, missing, missing_field, needed_by_letter};
ghost use Rattle.report.specs.Texts.{text_in};

use fields::field::report::Action;
use refusals::refusal::Refusal;
use refusals::tag::Tag;
use slip::slip::Slip;

// What every report needs.
pub const ALWAYS_NEEDED: &[Tag] = &[
    Tag::TradeId,
    Tag::ReportingCounterparty,
    Tag::OtherKind,
    Tag::OtherCounterparty,
    Tag::OtherCountry,
    Tag::Action,
];

// What a report needs besides, by its action.
pub fn needed_by(action: Action) -> &'static [Tag]
    ensures { result.now ≡ needed_by_letter (action_letter action) }
{
    match action {
        Action::New | Action::PositionComponent | Action::Modify | Action::Correction => &[
            Tag::Level,
            Tag::EligibleDate,
            Tag::Side,
            Tag::ExecutionTimestamp,
        ],
        Action::ValuationUpdate => &[Tag::Valuation],
        Action::EarlyTermination | Action::Compression | Action::Error => &[],
    }
}

fn first_missing(slip: &Slip, tags: &[Tag]) -> Option<Tag>
    ensures { result ≡ missing (text_in (fields_of slip.now)) tags.now }
{
    for tag in tags {
        if slip.field(*tag).is_none() {
            return Some(*tag);
        }
    }
    None
}

// Refuses a slip that lacks one of these fields, for the first that it lacks.
#[tactic(auto, using(crate::proofs::Missing::none_missing))]
pub fn require(slip: &Slip, tags: &[Tag]) -> Result<(), Refusal>
    ensures there { OnOk result (AllThere (text_in (fields_of slip.now)) tags.now) }
    ensures refusal { result_err result ≡ missing_field (text_in (fields_of slip.now)) tags.now }
{
    match first_missing(slip, tags) {
        Some(tag) => Err(Refusal::FieldMissing(tag)),
        None => Ok(()),
    }
}
