// The bytes of fields, as a slip is laid out.
ghost use Rattle.std.specs.Prelude.{◌≡◌, ◌++◌, ◌≤◌, length, nat_le, if◌then◌else◌, IfOk, IfErr, OnOk, map, Some, None};
ghost use Rattle.std.specs.List.{concat};
ghost use Rattle.slip.specs.Layout.{ends_of};
ghost use Rattle.slip.specs.Writing.{bytes_of_texts, set_out};
ghost use Rattle.slip_words.specs.Faults.{IfNotSpelled, error_text, too_much_text};
ghost use Rattle.slip_words.specs.Spelled.{laid_within, text_size};
ghost use Rattle.slip_words.specs.Tagged.{tagged};

use crate::fault::SlipWordError;
use crate::field::SpelledField;
use std::alloc::{AllocError, Global};

// How many fields there are, if a byte can tell it.
fn field_count(fields: &[SpelledField]) -> Option<u8>
    ensures { result ≡ (if nat_le (length (map tagged fields.now)) 255 then Some (length (map tagged fields.now)) else None) }
{
    u8::try_from(fields.len()).ok()
}

// How many bytes of text fields have, if two bytes can tell it.
fn text_size(fields: &[SpelledField]) -> Option<u16>
    ensures { result ≡ (if nat_le (text_size (map tagged fields.now)) 65535 then Some (text_size (map tagged fields.now)) else None) }
{
    let mut size: u16 = 0;
    for field in fields {
        size = size.checked_add(u16::try_from(field.text.len()).ok()?)?;
    }
    Some(size)
}

fn push_tags(bytes: &mut Vec<u8>, fields: &[SpelledField]) -> Result<(), AllocError>
    ensures { OnOk result (bytes.new.items ≡ bytes.old.items ++ map (λ t. t.tag) (map tagged fields.now)) }
{
    for field in fields {
        bytes.push(field.tag)?;
    }
    Ok(())
}

// The end of each text, as two bytes.
fn push_ends(bytes: &mut Vec<u8>, fields: &[SpelledField]) -> Result<(), AllocError>
    requires { text_size (map tagged fields.now) ≤ 65535 }
    ensures { OnOk result (bytes.new.items ≡ bytes.old.items ++ ends_of (set_out 0 (map tagged fields.now))) }
{
    let mut end: u16 = 0;
    for field in fields {
        end += field.text.len() as u16;
        bytes.extend_from_slice(&end.to_be_bytes())?;
    }
    Ok(())
}

fn push_texts(bytes: &mut Vec<u8>, fields: &[SpelledField]) -> Result<(), AllocError>
    ensures { OnOk result (bytes.new.items ≡ bytes.old.items ++ concat (map (λ t. t.text) (map tagged fields.now))) }
{
    for field in fields {
        bytes.extend_from_slice(field.text)?;
    }
    Ok(())
}

// The parts of a slip in a row.
#[tactic(auto, using(crate::proofs::Laying::parts_joined, std::proofs::lemmas::Grind::common_steps))]
fn join_parts(
    alloc: Global,
    count: u8,
    size: u16,
    fields: &[SpelledField],
) -> Result<Vec<u8>, AllocError>
    requires count { count ≡ length (map tagged fields.now) }
    requires size { size ≡ text_size (map tagged fields.now) }
    ensures { IfOk result (λ bytes. bytes.items ≡ bytes_of_texts (map tagged fields.now)) }
{
    let mut bytes = Vec::new(alloc);
    bytes.push(count)?;
    bytes.extend_from_slice(&size.to_be_bytes())?;
    push_tags(&mut bytes, fields)?;
    push_ends(&mut bytes, fields)?;
    push_texts(&mut bytes, fields)?;
    Ok(bytes)
}

// The slip of these fields, whether or not their tags rise.
pub fn lay_out(alloc: Global, fields: &[SpelledField]) -> Result<Vec<u8>, SlipWordError>
    ensures bytes { IfOk result (λ bytes. laid_within (Some (map tagged fields.now)) ≡ Some bytes.items) }
    ensures fault { IfErr result (λ e. IfNotSpelled e (laid_within (Some (map tagged fields.now)) ≡ None)) }
    ensures told { IfErr result (λ e. IfNotSpelled e (error_text e ≡ too_much_text (map tagged fields.now))) }
{
    let Some(count) = field_count(fields) else {
        return Err(SlipWordError::TooManyFields(fields.len()));
    };
    let Some(size) = text_size(fields) else {
        return Err(SlipWordError::TooLong);
    };
    Ok(join_parts(alloc, count, size, fields)?)
}
