// Reads the details from a slip.
ghost use Rattle.std.specs.Prelude.{◌≡◌, IfOk};
ghost use Rattle.std.specs.Option.{option_map};
ghost use Rattle.std.specs.Result.{result_err};
ghost use Rattle.refusals.specs.declared.refusal.Refusal.TheVariants.{BadField};
ghost use Rattle.slip.specs.Fields.{fields_of};
ghost use Rattle.report.specs.Judging.{detail_tags, first_bad};
ghost use Rattle.report.specs.Texts.{text_in};
ghost use Rattle.report.specs.Values.{TellsDetails};

use super::Details;
use crate::values::{amount, code, letter, rate, timestamp};
use refusals::refusal::Refusal;
use refusals::tag::Tag;
use slip::slip::Slip;

impl Details {
    // The details that a slip says; the first bad one of them is refused.
    #[tactic(auto, unfolding(crate::specs::Judging::detail_tags))]
    pub(crate) fn read(slip: &Slip) -> Result<Details, Refusal>
        ensures value { IfOk result (TellsDetails (text_in (fields_of slip.now))) }
        ensures refusal { result_err result ≡ option_map BadField (first_bad (text_in (fields_of slip.now)) detail_tags) }
    {
        Ok(Details {
            side: letter(slip, Tag::Side)?,
            product_id_kind: letter(slip, Tag::ProductIdKind)?,
            product_id: code(slip, Tag::ProductId)?,
            underlying_kind: letter(slip, Tag::UnderlyingKind)?,
            underlying_id: code(slip, Tag::UnderlyingId)?,
            notional_currency_1: code(slip, Tag::NotionalCurrency1)?,
            notional_currency_2: code(slip, Tag::NotionalCurrency2)?,
            venue: code(slip, Tag::Venue)?,
            compression: letter(slip, Tag::Compression)?,
            price: amount(slip, Tag::Price)?,
            price_notation: letter(slip, Tag::PriceNotation)?,
            price_currency: code(slip, Tag::PriceCurrency)?,
            notional: amount(slip, Tag::Notional)?,
            executed: timestamp(slip, Tag::ExecutionTimestamp)?,
            cleared: timestamp(slip, Tag::ClearingTimestamp)?,
            exchange_rate_1: rate(slip, Tag::ExchangeRate1)?,
        })
    }
}
