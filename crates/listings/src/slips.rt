// The fields of a slip, a line for each.
ghost use Rattle.std.specs.Prelude.{◌≡◌, ◌++◌, IfOk, OnOk, string_bytes};
ghost use Rattle.slip.specs.Fields.{field_of, fields_of};
ghost use Rattle.slip.specs.Layout.{fields_in};
ghost use Rattle.listings.specs.Slips.{field_line, fields_text, slip_text};

use journal::escapes::escape;
use refusals::refusal::Refusal;
use slip::field::{Field, Part};
use slip::slip::Slip;
use std::alloc::{AllocError, Global};

// The tag of a field, the place of its text and the text, on a line of their own.
fn push_field(alloc: Global, out: &mut String, field: Field) -> Result<(), AllocError>
    ensures { OnOk result (string_bytes out.new ≡ string_bytes out.old ++ field_line (field_of field.entry)) }
{
    let tag = field.tag();
    let Part { text, place } = field.part();
    let text = escape(alloc, text)?;
    write!(out, "\n  {tag} at {place} {text}")
}

fn list_fields(alloc: Global, slip: &Slip) -> Result<String, AllocError>
    ensures { IfOk result (λ s. string_bytes s ≡ fields_text (fields_of slip.now)) }
{
    let count = slip.field_count();
    let mut out = format!(in alloc; "{count} fields")?;
    for field in slip.fields() {
        push_field(alloc, &mut out, field)?;
    }
    Ok(out)
}

// How many fields a slip has, and each of them; or the refusal of bytes that are no slip.
pub fn list_slip(alloc: Global, bytes: &[u8]) -> Result<String, AllocError>
    ensures { IfOk result (λ s. string_bytes s ≡ slip_text (fields_in bytes.now)) }
{
    match Slip::read(bytes) {
        Ok(slip) => list_fields(alloc, &slip),
        Err(_) => {
            let refusal = Refusal::TornSlip;
            format!(in alloc; "{refusal}")
        }
    }
}
