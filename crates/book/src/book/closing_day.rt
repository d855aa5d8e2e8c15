// Closes a day.
ghost use Rattle.std.specs.Prelude.{◌≡◌, length};
ghost use Rattle.closing.specs.Lists.{lists_of};
ghost use Rattle.book.specs.Calls.{Closes};

use super::Book;
use business::business_day::BusinessDay;
use closing::table_close::close_table;
use codes::code::{Country, Lei};
use refusals::refusal::Refusal;
use rows::notice::Notice;
use sheets::sheet::Sheet;

impl<'t> Book<'t> {
    // Closes the current day: judges every row, puts down a notice for each that is freed or shows something new, and moves
    // on to the next business day. Answers how many notices there are, how many pairs were taken up, and the next day. What
    // is refused leaves everything as it was. All closes of one book get the same sheet.
    pub fn close<S: Sheet>(
        &mut self,
        sheet: &S,
        parties: &[Lei],
        countries: &[Country],
        notices: &mut [Notice],
    ) -> Result<(usize, usize, BusinessDay), Refusal>
        ensures lent { self.new.rows.ghost_name ≡ self.old.rows.ghost_name }
        ensures call { Closes (S.meaning sheet.now) (lists_of parties.now countries.now (length notices.old)) self.old self.new notices.old notices.new result }
    {
        let day = self.day;
        let used = self.used;
        let closed = close_table(sheet, self.rows, used, day, parties, countries, notices)?;
        self.day = closed.next_day;
        self.used = closed.used;
        Ok((closed.notices, closed.pairs, closed.next_day))
    }
}
