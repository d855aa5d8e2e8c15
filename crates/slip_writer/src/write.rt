// Writing a report as a slip.
ghost use Rattle.std.specs.Prelude.{◌≡◌, ◌≤◌, length, Ok, Result};
ghost use Rattle.std.specs.Result.{result_map_both};
ghost use Rattle.texts.specs.Buffers.{answered, filled};
ghost use Rattle.refusals.specs.Words.{parts_of};
ghost use Rattle.refusals.specs.declared.refusal.Refusal.{Refusal};
ghost use Rattle.report.specs.Judging.{Texts, all_tags};
ghost use Rattle.report.specs.Laws.{ReadAs};
ghost use Rattle.report.specs.Values.{Tells};
ghost use Rattle.report.specs.declared.report.Report.{Report};
ghost use Rattle.slip.specs.Drafts.{fields_drafted};
ghost use Rattle.slip.specs.Layout.{IsSlip};
ghost use Rattle.slip_writer.specs.Written.{fields_written, or_short, shortened, slip_of, slip_with};

use crate::text::field_text;
use refusals::refusal::Refusal;
use refusals::tag::Tag;
use report::report::Report;
use slip::draft::Draft;

// The bytes that the longest slip of a report has: its sizes, all fields, and the longest text of each.
pub const LONGEST: usize = 449;

// The fields of a report, by rising tags.
const ALL_TAGS: &[Tag] = &[
    Tag::TradeId,
    Tag::ReportingCounterparty,
    Tag::OtherKind,
    Tag::OtherCounterparty,
    Tag::OtherCountry,
    Tag::Action,
    Tag::Level,
    Tag::EligibleDate,
    Tag::Side,
    Tag::ProductIdKind,
    Tag::ProductId,
    Tag::UnderlyingKind,
    Tag::UnderlyingId,
    Tag::NotionalCurrency1,
    Tag::NotionalCurrency2,
    Tag::Venue,
    Tag::Compression,
    Tag::Price,
    Tag::PriceNotation,
    Tag::PriceCurrency,
    Tag::Notional,
    Tag::ExecutionTimestamp,
    Tag::ClearingTimestamp,
    Tag::ExchangeRate1,
    Tag::Valuation,
];

// Puts the fields that a report has one behind the other. The tags are all of them, handed in so that the prover sees no
// list of twenty-five.
#[tactic(auto, using(crate::proofs::NextField::may_be_put_next, crate::proofs::NextField::put, crate::proofs::NextField::passed))]
fn draft_of(report: &Report, tags: &[Tag]) -> Draft
    requires { tags.now ≡ all_tags }
    ensures { fields_drafted result ≡ fields_written report.now }
{
    let mut draft = Draft::new();
    for tag in tags {
        if let Some(text) = field_text(report, *tag) {
            draft.push(*tag, text.as_slice()).unwrap();
        }
    }
    draft
}

// The slip of a report in the making: all its fields.
#[tactic(auto, unfolding(report::specs::Judging::all_tags, report::specs::Judging::party_tags, report::specs::Judging::detail_tags))]
fn draft(report: &Report) -> Draft
    ensures { fields_drafted result ≡ fields_written report.now }
{
    draft_of(report, ALL_TAGS)
}

// Writes a report as a slip to the front of `out` and answers the slip's length: its fields by rising tags, amounts as
// short as they can be. A buffer that is too short stays as it is.
#[tactic(auto, using(crate::proofs::RoundTrip::is_slip, crate::proofs::SameTexts::same_texts))]
pub fn write_report(report: &Report, out: &mut [u8]) -> Result<usize, Refusal>
    ensures answer { result_map_both (λ n. n) parts_of result ≡ or_short (answered (slip_of report.now) out.old) }
    ensures buffer { out.new ≡ filled (slip_of report.now) out.old }
    ensures room { length (slip_of report.now) ≤ LONGEST }
    ensures texts { (texts : Texts) → Tells texts report.now → slip_of report.now ≡ slip_with (shortened texts) }
    ensures slip { IsSlip (slip_of report.now) (fields_written report.now) }
    ensures is_read { ReadAs (slip_of report.now) (Ok report.now) }
    ensures reads_back { (answer : Result Report Refusal) → ReadAs (slip_of report.now) answer → answer ≡ Ok report.now }
{
    draft(report)
        .slip()
        .write(out)
        .ok_or(Refusal::SlipBufferShort)
}
