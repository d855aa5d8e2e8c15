// A sheet that is chosen while a program runs.
ghost use Rattle.built_sheets.specs.Chosen.{chosen};

use crate::kdpw::KdpwSheet;
use crate::tabled::TabledSheet;
use report::details::Details;
use sheets::finding::{Category, Finding};
use sheets::sheet::Sheet;

// The published sheet, or a client's.
#[derive(Clone, Copy)]
pub enum ChosenSheet {
    Kdpw(KdpwSheet),
    Tabled(TabledSheet),
}

impl Sheet for ChosenSheet {
    ghost meaning = { chosen };

    fn field_count(&self) -> usize {
        match self {
            ChosenSheet::Kdpw(sheet) => sheet.field_count(),
            ChosenSheet::Tabled(sheet) => sheet.field_count(),
        }
    }

    fn category(&self, field: usize) -> Category {
        match self {
            ChosenSheet::Kdpw(sheet) => sheet.category(field),
            ChosenSheet::Tabled(sheet) => sheet.category(field),
        }
    }

    fn finding(&self, field: usize, first: &Details, second: &Details) -> Finding {
        match self {
            ChosenSheet::Kdpw(sheet) => sheet.finding(field, first, second),
            ChosenSheet::Tabled(sheet) => sheet.finding(field, first, second),
        }
    }
}
