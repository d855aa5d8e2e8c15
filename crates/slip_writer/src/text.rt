// The texts of a report's fields.
ghost use Rattle.std.specs.Prelude.{◌≡◌};
ghost use Rattle.std.specs.Option.{option_map};
ghost use Rattle.slip_writer.specs.Written.{written_text};

use crate::field_text::{
    FieldText, amount_text, code_text, copied, date_text, letter_text, rate_text, timestamp_text,
};
use refusals::tag::Tag;
use report::report::Report;

// The text of a field, if the report has it: as it stands in the slip as which the report is written.
#[tactic(auto, using(crate::proofs::OwnTexts::party_fits))]
pub fn field_text(report: &Report, tag: Tag) -> Option<FieldText>
    ensures { option_map (λ t. t.items) result ≡ written_text report.now tag }
{
    let details = &report.details;
    match tag {
        Tag::TradeId => Some(code_text(report.parties.trade)),
        Tag::ReportingCounterparty => Some(code_text(report.parties.reporter)),
        Tag::OtherKind => Some(letter_text(report.parties.other.kind())),
        Tag::OtherCounterparty => Some(copied(report.parties.other.bytes())),
        Tag::OtherCountry => Some(code_text(report.parties.country)),
        Tag::Action => Some(letter_text(report.action)),
        Tag::Level => report.level.map(letter_text),
        Tag::EligibleDate => report.eligible.map(date_text),
        Tag::Side => details.side.map(letter_text),
        Tag::ProductIdKind => details.product_id_kind.map(letter_text),
        Tag::ProductId => details.product_id.map(code_text),
        Tag::UnderlyingKind => details.underlying_kind.map(letter_text),
        Tag::UnderlyingId => details.underlying_id.map(code_text),
        Tag::NotionalCurrency1 => details.notional_currency_1.map(code_text),
        Tag::NotionalCurrency2 => details.notional_currency_2.map(code_text),
        Tag::Venue => details.venue.map(code_text),
        Tag::Compression => details.compression.map(letter_text),
        Tag::Price => details.price.map(amount_text),
        Tag::PriceNotation => details.price_notation.map(letter_text),
        Tag::PriceCurrency => details.price_currency.map(code_text),
        Tag::Notional => details.notional.map(amount_text),
        Tag::ExecutionTimestamp => details.executed.map(timestamp_text),
        Tag::ClearingTimestamp => details.cleared.map(timestamp_text),
        Tag::ExchangeRate1 => details.exchange_rate_1.map(rate_text),
        Tag::Valuation => report.valuation.map(amount_text),
    }
}
