// Reads a client's sheet.
ghost use Rattle.std.specs.Prelude.{◌≡◌, length, true, Some, None, if◌then◌else◌};
ghost use Rattle.std.specs.Option.{option_map};
ghost use Rattle.std.specs.Result.{result_map_both};
ghost use Rattle.refusals.specs.Words.{parts_of};
ghost use Rattle.built_sheets.specs.Rules.{row_fits, rows_fit, sheet_of};
ghost use Rattle.built_sheets.specs.Rows.{categories_of, codes_of};
ghost use Rattle.built_sheets.specs.Tabled.{bytes_of, numbers_of};

use super::TabledSheet;
use super::row::TabledRow;
use checks::check::Check;
use checks::field::{COMPARED, Field};
use refusals::refusal::Refusal;
use sheets::finding::Category;

impl TabledRow {
    // The row of a field with this code and category.
    fn read(code: u8, category: u8, field: Field) -> Option<TabledRow>
        ensures { option_map numbers_of result ≡ (if row_fits code category field then Some (record { code = code; category = category }) else None) }
    {
        match (Check::of_number(code), category) {
            (None, 3) if code == 0 => Some(TabledRow {
                check: None,
                category: Category::Third,
            }),
            (Some(check), 1) if check.fits(field) => Some(TabledRow {
                check: Some(check),
                category: Category::First,
            }),
            (Some(check), 2) if check.fits(field) => Some(TabledRow {
                check: Some(check),
                category: Category::Second,
            }),
            _ => None,
        }
    }
}

// What stands in a place before it is read.
const OPEN: TabledRow = TabledRow {
    check: None,
    category: Category::Third,
};

// Reads rows with these codes and categories into places, one for each field, if all of them fit their fields.
fn read_rows(codes: &[u8], categories: &[u8], fields: &[Field], rows: &mut [TabledRow]) -> bool
    requires codes { length codes.now ≡ length rows.old }
    requires categories { length categories.now ≡ length rows.old }
    requires fields { length fields.now ≡ length rows.old }
    ensures fit { result ≡ rows_fit codes.now categories.now fields.now }
    ensures rows { result ≡ true → (codes_of rows.new ≡ codes.now) × (categories_of rows.new ≡ categories.now) }
{
    for place in 0..rows.len() {
        let Some(row) = TabledRow::read(codes[place], categories[place], fields[place]) else {
            return false;
        };
        rows[place] = row;
    }
    true
}

impl TabledSheet {
    // The sheet that a client's 31 bytes are. `read` and no `TryFrom`, as at every value.
    #[tactic(auto, using(crate::proofs::Reading::bytes_back, std::proofs::lemmas::Bool::Decides::nat_tests))]
    pub fn read(bytes: &[u8]) -> Result<TabledSheet, Refusal>
        ensures { result_map_both bytes_of parts_of result ≡ sheet_of bytes.now }
    {
        let [15, rest @ ..] = bytes else {
            return Err(Refusal::BadSheet);
        };
        if rest.len() != 30 {
            return Err(Refusal::BadSheet);
        }
        let (codes, categories) = rest.split_at(15);
        let mut rows = [OPEN; 15];
        if read_rows(codes, categories, &COMPARED, &mut rows) {
            Ok(TabledSheet { rows })
        } else {
            Err(Refusal::BadSheet)
        }
    }
}
