// The fields that differ, by their positions and names.
ghost use Rattle.std.specs.Prelude.{◌≡◌, ◌++◌, OnOk, string_bytes};
ghost use Rattle.std.specs.Option.{option_map};
ghost use Rattle.sheets.specs.Findings.{finding_numbers};
ghost use Rattle.book_texts.specs.Positions.{differing_text, name_of, position_text};

use sheets::finding::Finding;
use std::alloc::AllocError;

// The name of the field at a position. Positions are counted from 1; one past 15 has no name.
pub fn field_name(position: usize) -> Option<&'static str>
    ensures { option_map (λ s. s.now) result ≡ name_of position }
{
    match position {
        1 => Some("side"),
        2 => Some("product id"),
        3 => Some("underlying type"),
        4 => Some("underlying id"),
        5 => Some("notional currency 1"),
        6 => Some("notional currency 2"),
        7 => Some("venue"),
        8 => Some("compression"),
        9 => Some("price"),
        10 => Some("price notation"),
        11 => Some("price currency"),
        12 => Some("notional"),
        13 => Some("execution timestamp"),
        14 => Some("clearing timestamp"),
        15 => Some("exchange rate 1"),
        _ => None,
    }
}

// A position with its name, where it has one.
#[tactic(auto, unfolding(crate::specs::Positions::position_text))]
fn push_position(out: &mut String, position: usize) -> Result<(), AllocError>
    ensures { OnOk result (string_bytes out.new ≡ string_bytes out.old ++ position_text position) }
{
    match field_name(position) {
        Some(name) => write!(out, "{position} {name}"),
        None => write!(out, "{position}"),
    }
}

// The positions and names of the findings that differ, in parentheses; nothing where none does.
pub fn push_differing(out: &mut String, findings: &[Finding]) -> Result<(), AllocError>
    ensures { OnOk result (string_bytes out.new ≡ string_bytes out.old ++ differing_text (finding_numbers findings.now)) }
{
    let mut any = false;
    for place in 0..findings.len() {
        if findings[place] == Finding::Differs {
            out.push_str(if any { ", " } else { " (" })?;
            push_position(out, place + 1)?;
            any = true;
        }
    }
    if any {
        out.push(')')?;
    }
    Ok(())
}
