// The rows of the published table.
use checks::check::Check;
use checks::field::Field;
use sheets::finding::Category;

// How a field is compared, and how much it weighs.
#[derive(Clone, Copy)]
pub struct Row {
    pub field: Field,
    pub check: Check,
    pub category: Category,
}
