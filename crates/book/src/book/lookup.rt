// Looks a row up.
ghost use Rattle.std.specs.Prelude.{◌≡◌};
ghost use Rattle.book.specs.Calls.{Looks};

use super::Book;
use intake::locate::locate;
use refusals::refusal::Refusal;
use rows::key::TradeKey;
use rows::state::State;
use sheets::comparing::PLACES;
use sheets::finding::Finding;

impl<'t> Book<'t> {
    // What the row of this key shows: its state, and its findings in their place. What is refused leaves the place as it was.
    pub fn lookup(
        &self,
        trade: &[u8],
        reporter: &[u8],
        other: &[u8],
        findings: &mut [Finding; PLACES],
    ) -> Result<State, Refusal>
        ensures call { Looks self.now trade.now reporter.now other.now findings.old findings.new result }
    {
        let key = TradeKey::read(trade, reporter, other)?;
        let rows = &*self.rows;
        let Ok(at) = locate(rows, self.used, &key) else {
            return Err(Refusal::UnknownTrade);
        };
        let row = rows[at];
        let shown = row.findings;
        *findings = shown;
        Ok(row.state)
    }
}
