// What a row shows.
ghost use Rattle.std.specs.Prelude.{◌≡◌, IfOk, string_bytes};
ghost use Rattle.rows.specs.Words.{told};
ghost use Rattle.book_texts.specs.Lines.{shown_text};

use listings::comparing::push_findings;
use rows::state::State;
use sheets::finding::Finding;
use std::alloc::{AllocError, Global};

// A state and its findings.
pub fn shown_text(alloc: Global, state: State, findings: &[Finding]) -> Result<String, AllocError>
    ensures { IfOk result (λ s. string_bytes s ≡ shown_text (told state findings.now)) }
{
    let mut out = format!(in alloc; "{state} ")?;
    push_findings(&mut out, findings)?;
    Ok(out)
}
