// One field of two reports compared.
ghost use Rattle.std.specs.Prelude.{◌≡◌, List, Option, ℕ};
ghost use Rattle.std.specs.Option.{option_map};
ghost use Rattle.amounts.specs.Amounts.{worth};
ghost use Rattle.codes.specs.Codes.{text_of};
ghost use Rattle.timestamps.specs.Timestamps.{instant as instant_of};
ghost use Rattle.sheets.specs.Findings.{finding_number};
ghost use Rattle.checks.specs.Checks.{found, holds, opposite};
ghost use Rattle.checks.specs.Values.{amount, instant, letter, side, text, told};

use crate::check::Check;
use crate::field::Field;
use crate::value::{Value, value_of};
use amounts::amount::Amount;
use codes::code::Venue;
use fields::field::detail::Side;
use report::details::Details;
use sheets::finding::Finding;
use timestamps::timestamp::Timestamp;

// Whether one is the buyer and the other the seller.
fn are_opposite(first: Side, second: Side) -> bool
    ensures { result ≡ opposite first second }
{
    match (first, second) {
        (Side::Buyer, Side::Seller) | (Side::Seller, Side::Buyer) => true,
        (Side::Buyer, Side::Buyer) | (Side::Seller, Side::Seller) => false,
    }
}

fn sides_hold(check: Check, first: Side, second: Side) -> bool
    ensures { (v w : Option (List ℕ)) → result ≡ holds check v w (side first) (side second) }
{
    match check {
        Check::Exact => first == second,
        Check::Opposite => are_opposite(first, second),
        Check::OnePercent | Check::WholeNumber | Check::WithinAnHour | Check::SameDate => false,
    }
}

fn letters_hold(check: Check, first: u8, second: u8) -> bool
    ensures { (v w : Option (List ℕ)) → result ≡ holds check v w (letter first) (letter second) }
{
    check == Check::Exact && first == second
}

fn texts_hold(check: Check, first: &[u8], second: &[u8]) -> bool
    ensures { (v w : Option (List ℕ)) → result ≡ holds check v w (text first.now) (text second.now) }
{
    check == Check::Exact && first == second
}

fn amounts_hold(check: Check, first: &Amount, second: &Amount) -> bool
    ensures { (v w : Option (List ℕ)) → result ≡ holds check v w (amount (worth first.now)) (amount (worth second.now)) }
{
    match check {
        Check::OnePercent => first.within_one_percent(second),
        Check::WholeNumber => first.same_whole(second),
        Check::Exact => first.same_value(second),
        Check::WithinAnHour | Check::SameDate | Check::Opposite => false,
    }
}

fn timestamps_hold(
    check: Check,
    first: Timestamp,
    venue: Option<Venue>,
    second: Timestamp,
    second_venue: Option<Venue>,
) -> bool
    ensures { result ≡ holds check (option_map text_of venue) (option_map text_of second_venue) (instant (instant_of first)) (instant (instant_of second)) }
{
    match check {
        Check::WithinAnHour => first.within_an_hour(venue, second, second_venue),
        Check::SameDate => first.same_date(second),
        Check::Exact => first.same_instant(second),
        Check::OnePercent | Check::WholeNumber | Check::Opposite => false,
    }
}

// Whether two values pass a check, with the venues of their reports.
fn holds(
    check: Check,
    first: Value,
    venue: Option<Venue>,
    second: Value,
    second_venue: Option<Venue>,
) -> bool
    ensures { result ≡ holds check (option_map text_of venue) (option_map text_of second_venue) (told first.entry) (told second.entry) }
{
    match (first, second) {
        (Value::Side(x), Value::Side(y)) => sides_hold(check, x, y),
        (Value::Letter(x), Value::Letter(y)) => letters_hold(check, x, y),
        (Value::Text(x), Value::Text(y)) => texts_hold(check, x, y),
        (Value::Amount(x), Value::Amount(y)) => amounts_hold(check, &x, &y),
        (Value::Timestamp(x), Value::Timestamp(y)) => {
            timestamps_hold(check, x, venue, y, second_venue)
        }
        _ => false,
    }
}

// Compares a field of two reports. A value that both leave out matches, and one that only one has differs.
pub fn check_field(check: Check, field: Field, first: &Details, second: &Details) -> Finding
    ensures { finding_number result ≡ finding_number (found check field first.now second.now) }
{
    match (value_of(field, first), value_of(field, second)) {
        (None, None) => Finding::Matches,
        (None, Some(_)) | (Some(_), None) => Finding::Differs,
        (Some(x), Some(y)) => {
            if holds(check, x, first.venue, y, second.venue) {
                Finding::Matches
            } else {
                Finding::Differs
            }
        }
    }
}
