// The rows of a client's sheet.
ghost use Rattle.std.specs.Prelude.{◌≡◌, true};
ghost use Rattle.built_sheets.specs.Rules.{is_whole};

use checks::check::Check;
use sheets::finding::Category;

// How a field is compared, if it is, and how much it weighs.
#[derive(Clone, Copy)]
pub struct TabledRow {
    pub(super) check: Option<Check>,
    pub(super) category: Category,
    ghost whole: { is_whole check category ≡ true },
}
