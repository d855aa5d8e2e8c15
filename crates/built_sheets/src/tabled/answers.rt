// What a client's sheet answers.
ghost use Rattle.std.specs.Prelude.{◌≡◌, slice_get};
ghost use Rattle.std.specs.Option.{option_copied};
ghost use Rattle.built_sheets.specs.Tabled.{tabled};

use super::TabledSheet;
use super::row::TabledRow;
use checks::field::Field;
use checks::judging::check_field;
use report::details::Details;
use sheets::finding::{Category, Finding};
use sheets::sheet::Sheet;

impl TabledSheet {
    fn row(&self, field: usize) -> Option<&TabledRow>
        ensures { option_copied result ≡ slice_get self.now.rows field }
    {
        self.rows.get(field)
    }
}

impl Sheet for TabledSheet {
    ghost meaning = { tabled };

    fn field_count(&self) -> usize {
        self.rows.len()
    }

    fn category(&self, field: usize) -> Category {
        match self.row(field) {
            Some(row) => row.category,
            None => Category::Third,
        }
    }

    fn finding(&self, field: usize, first: &Details, second: &Details) -> Finding {
        let Some(row) = self.row(field) else {
            return Finding::NotCompared;
        };
        match (row.check, Field::at(field)) {
            (Some(check), Some(field)) => check_field(check, field, first, second),
            _ => Finding::NotCompared,
        }
    }
}
