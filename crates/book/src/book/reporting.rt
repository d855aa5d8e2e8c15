// Takes a report.
ghost use Rattle.std.specs.Prelude.{◌≡◌};
ghost use Rattle.book.specs.Calls.{Reports};

use super::Book;
use intake::receive::receive;
use refusals::refusal::Refusal;
use report::report::Report;

impl<'t> Book<'t> {
    // Takes the report that a slip's bytes are: enters its trade, or changes or ends the row that is there. What is refused
    // leaves everything as it was.
    pub fn report(&mut self, slip: &[u8]) -> Result<(), Refusal>
        ensures lent { self.new.rows.ghost_name ≡ self.old.rows.ghost_name }
        ensures call { Reports slip.now self.old self.new result }
    {
        let report = Report::read(slip)?;
        let day = self.day;
        let used = self.used;
        self.used = receive(self.rows, used, day, &report)?;
        Ok(())
    }
}
