// What a sheet is.
ghost use Rattle.std.specs.Prelude.{◌≡◌};
ghost use Rattle.sheets.specs.Findings.{category_number, finding_number};
ghost use Rattle.sheets.specs.Sheets.{Meaning};

use crate::finding::{Category, Finding};
use report::details::Details;

// Says which fields of two reports are compared, how, and how much each weighs. Fields are numbered from 0, and any
// number is answered.
pub trait Sheet {
    // what it means, with the laws of every sheet
    ghost meaning: { Self → Meaning };

    // How many fields it has, from 1 to 64.
    fn field_count(&self) -> usize
        ensures { result ≡ (meaning self.now).fields };

    // The weight of a field; behind the last it is the third category.
    fn category(&self, field: usize) -> Category
        ensures { category_number result ≡ category_number ((meaning self.now).category field) };

    // What it finds at a field of two reports.
    fn finding(&self, field: usize, first: &Details, second: &Details) -> Finding
        ensures { finding_number result ≡ finding_number ((meaning self.now).finding field first.now second.now) };
}
