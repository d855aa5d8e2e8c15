// Notices, a line for each.
ghost use Rattle.std.specs.Prelude.{◌≡◌, ◌++◌, IfOk, OnOk, string_bytes};
ghost use Rattle.book_texts.specs.Lines.{notice_line, notices_text};

use crate::differing::push_differing;
use crate::key::push_key;
use listings::comparing::push_findings;
use rows::notice::Notice;
use std::alloc::{AllocError, Global};

// A notice on a line of its own.
pub fn push_notice(out: &mut String, notice: &Notice) -> Result<(), AllocError>
    ensures { OnOk result (string_bytes out.new ≡ string_bytes out.old ++ notice_line notice.now) }
{
    write!(out, "\n  ")?;
    push_key(out, &notice.key)?;
    let state = notice.state;
    write!(out, " {state} ")?;
    push_findings(out, &notice.findings)?;
    push_differing(out, &notice.findings)
}

// A line for each notice.
pub fn list_notices(alloc: Global, notices: &[Notice]) -> Result<String, AllocError>
    ensures { IfOk result (λ s. string_bytes s ≡ notices_text notices.now) }
{
    let mut out = String::new(alloc);
    for notice in notices {
        push_notice(&mut out, notice)?;
    }
    Ok(out)
}
