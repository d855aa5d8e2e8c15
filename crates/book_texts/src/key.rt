// What a row is found by.
ghost use Rattle.std.specs.Prelude.{◌≡◌, ◌++◌, OnOk, string_bytes};
ghost use Rattle.rows.specs.Keys.{key_of};
ghost use Rattle.book_texts.specs.Lines.{Unescaped, key_text};

use rows::key::TradeKey;
use std::alloc::AllocError;
use texts::ascii::as_str;

// The three texts of a key, as they are: their alphabets have nothing that an answer escapes.
pub fn push_key(out: &mut String, key: &TradeKey) -> Result<(), AllocError>
    ensures text { OnOk result (string_bytes out.new ≡ string_bytes out.old ++ key_text (key_of key.now)) }
    ensures unescaped { Unescaped (key_of key.now) }
{
    let trade = as_str(key.trade.bytes());
    let reporter = as_str(key.reporter.bytes());
    let other = as_str(key.other.bytes());
    write!(out, "{trade} {reporter} {other}")
}
