// A report as it is written again.
ghost use Rattle.std.specs.Prelude.{◌≡◌, IfOk, string_bytes};
ghost use Rattle.hex.specs.Hex.{encode_upper};
ghost use Rattle.listings.specs.Rewritten.{rewritten_text};
ghost use Rattle.slip_writer.specs.Written.{slip_of};

use report::report::Report;
use slip_writer::write::{LONGEST, write_report};
use std::alloc::{AllocError, Global};

// The slip as which a report is written, in capital hexadecimal digits.
fn written(alloc: Global, report: &Report) -> Result<String, AllocError>
    ensures { IfOk result (λ s. string_bytes s ≡ encode_upper (slip_of report.now)) }
{
    let mut buffer = [0; LONGEST];
    let len = write_report(report, &mut buffer).unwrap();
    hex::encode_upper(alloc, &buffer[..len])
}

// The slip that a report is read from, as the report is written again; or the refusal of bytes that are no report.
#[tactic(auto, using(crate::proofs::Again::again))]
pub fn rewrite(alloc: Global, bytes: &[u8]) -> Result<String, AllocError>
    ensures { IfOk result (λ s. string_bytes s ≡ rewritten_text bytes.now) }
{
    match Report::read(bytes) {
        Ok(report) => written(alloc, &report),
        Err(refusal) => format!(in alloc; "{refusal}"),
    }
}
