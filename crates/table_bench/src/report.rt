// Rows of a report's size, and the order in which they come.
ghost use Rattle.std.specs.Prelude.{◌≡◌, ◌+◌, ◌*◌, ◌%◌, ◌^◌, IfOk, vec_len};

use codes::code::TradeId;
use keys::key::Keyed;
use std::alloc::Global;

// A row as large as a report, found by the trade's name.
#[derive(Clone, Copy)]
pub struct Report {
    pub trade: TradeId,
    // what the name was made of
    pub number: u32,
    // what a report holds besides: the table moves it, and looks at none of it
    pub rest: [u64; 77],
}

const _: () = prove!(size_of::<Report>() == 672);

impl Keyed for Report {
    type Key = TradeId;

    ghost id = { λ report. report.trade };

    fn key(&self) -> &TradeId {
        &self.trade
    }
}

// A name of full length. All begin with the identifier of one party, as the names of trades that one party makes do, so
// that a comparison reads past it.
fn trade_of(alloc: Global, number: u32) -> anyhow::Result<TradeId> {
    let text = format!(in alloc; "259400LUPUA1BSPB4X83{number:032}")?;
    Ok(TradeId::read(text.as_str().as_bytes())?)
}

pub fn report_of(alloc: Global, number: u32) -> anyhow::Result<Report>
    ensures { IfOk result (λ report. report.number ≡ number) }
{
    Ok(Report {
        trade: trade_of(alloc, number)?,
        number,
        rest: [u64::from(number); 77],
    })
}

// The number that comes after this one. All numbers of 32 bits come before one comes again, so no trade comes twice.
fn next_number(number: u32) -> u32
    ensures { result ≡ (number * 1_664_525 + 1_013_904_223) % 2 ^ 32 }
{
    number.wrapping_mul(1_664_525).wrapping_add(1_013_904_223)
}

// So many reports, in an order that scatters them over the table.
pub fn scattered_reports(alloc: Global, count: u32) -> anyhow::Result<Vec<Report>>
    ensures { IfOk result (λ reports. vec_len reports ≡ count) }
{
    let mut reports = Vec::new(alloc);
    let mut number = 0;
    for _ in 0..count {
        number = next_number(number);
        reports.push(report_of(alloc, number)?)?;
    }
    Ok(reports)
}
