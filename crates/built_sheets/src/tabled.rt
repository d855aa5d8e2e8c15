// Sheets that clients fill.
ghost use Rattle.std.specs.Prelude.{◌≡◌, length, true};
ghost use Rattle.checks.specs.Values.{compared_fields};
ghost use Rattle.built_sheets.specs.Rows.{categories_of, codes_of};
ghost use Rattle.built_sheets.specs.Rules.{rows_fit};

pub mod answers;
pub mod read;
pub mod row;

use self::row::TabledRow;

// A client's sheet: a row for each compared field, with a check that fits the field.
#[derive(Clone, Copy)]
pub struct TabledSheet {
    rows: [TabledRow; 15],
    ghost count: { length rows ≡ 15 },
    ghost fits: { rows_fit (codes_of rows) (categories_of rows) compared_fields ≡ true },
}
