// What a report says, tag by tag. A text that is empty stands for a field that is not there, since no field's text is.
use amounts::amount::Amount;
use calendar::date::Date;
use codes::alphabet::Alphabet;
use codes::code::Code;
use fields::letter::Letter;
use report::details::Details;
use report::report::Report;
use timestamps::timestamp::Timestamp;

fn is_code<A: Alphabet, const LEAST: usize, const MOST: usize>(
    code: &Option<Code<A, LEAST, MOST>>,
    text: &[u8],
) -> bool {
    match code {
        Some(code) => code.bytes() == text,
        None => text.is_empty(),
    }
}

fn is_letter<L: Letter>(case: &Option<L>, text: &[u8]) -> bool {
    match case {
        Some(case) => text == [case.letter()].as_slice(),
        None => text.is_empty(),
    }
}

fn is_date(date: Option<Date>, text: &[u8]) -> bool {
    match date {
        Some(date) => date.text().as_slice() == text,
        None => text.is_empty(),
    }
}

fn is_timestamp(time: Option<Timestamp>, text: &[u8]) -> bool {
    match time {
        Some(time) => time.text().as_slice() == text,
        None => text.is_empty(),
    }
}

// Whether this is the amount's shortest text.
fn is_amount(amount: Option<Amount>, text: &[u8]) -> bool {
    let Some(amount) = amount else {
        return text.is_empty();
    };
    let mut buffer = [0; 22];
    amount.write(&mut buffer) == Some(text.len()) && buffer.starts_with(text)
}

fn detail_is(details: &Details, tag: u8, text: &[u8]) -> bool {
    match tag {
        9 => is_letter(&details.side, text),
        10 => is_letter(&details.product_id_kind, text),
        11 => is_code(&details.product_id, text),
        12 => is_letter(&details.underlying_kind, text),
        13 => is_code(&details.underlying_id, text),
        14 => is_code(&details.notional_currency_1, text),
        15 => is_code(&details.notional_currency_2, text),
        16 => is_code(&details.venue, text),
        17 => is_letter(&details.compression, text),
        18 => is_amount(details.price, text),
        19 => is_letter(&details.price_notation, text),
        20 => is_code(&details.price_currency, text),
        21 => is_amount(details.notional, text),
        22 => is_timestamp(details.executed, text),
        23 => is_timestamp(details.cleared, text),
        24 => is_amount(details.exchange_rate_1.map(|rate| rate.amount()), text),
        _ => false,
    }
}

fn field_is(report: &Report, tag: u8, text: &[u8]) -> bool {
    match tag {
        1 => report.parties.trade.bytes() == text,
        2 => report.parties.reporter.bytes() == text,
        3 => is_letter(&Some(report.parties.other.kind()), text),
        4 => report.parties.other.bytes() == text,
        5 => report.parties.country.bytes() == text,
        6 => is_letter(&Some(report.action), text),
        7 => is_letter(&report.level, text),
        8 => is_date(report.eligible, text),
        25 => is_amount(report.valuation, text),
        _ => detail_is(&report.details, tag, text),
    }
}

// The text at a tag, empty where the field is not there.
pub fn text_at<'t>(fields: &[(u8, &'t [u8])], tag: u8) -> &'t [u8] {
    match fields.iter().find(|field| field.0 == tag) {
        Some(field) => field.1,
        None => b"",
    }
}

// The first tag at which a report says something else than these fields; amounts stand there in shortest form.
pub fn differing(report: &Report, fields: &[(u8, &[u8])]) -> Option<u8> {
    (1..=25).find(|tag| !field_is(report, *tag, text_at(fields, *tag)))
}
