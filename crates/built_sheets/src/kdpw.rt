// The KDPW sheet: the published table.
ghost use Rattle.std.specs.Prelude.{◌≡◌, slice_get};
ghost use Rattle.std.specs.Option.{option_copied};
ghost use Rattle.sheets.specs.Findings.{finding_number};
ghost use Rattle.built_sheets.specs.Kdpw.{kdpw};
ghost use Rattle.built_sheets.specs.Published.{by_aii_or_basket, by_isin, is_compared, published, row_finding};

use crate::row::Row;
use checks::check::Check;
use checks::field::Field;
use checks::judging::check_field;
use fields::field::detail::{ProductIdKind, UnderlyingKind};
use report::details::Details;
use sheets::finding::{Category, Finding};
use sheets::sheet::Sheet;

// The table, by the order of its fields.
const ROWS: &[Row] = &[
    Row {
        field: Field::Side,
        check: Check::Opposite,
        category: Category::First,
    },
    Row {
        field: Field::ProductId,
        check: Check::Exact,
        category: Category::First,
    },
    Row {
        field: Field::UnderlyingKind,
        check: Check::Exact,
        category: Category::First,
    },
    Row {
        field: Field::UnderlyingId,
        check: Check::Exact,
        category: Category::First,
    },
    Row {
        field: Field::NotionalCurrency1,
        check: Check::Exact,
        category: Category::First,
    },
    Row {
        field: Field::NotionalCurrency2,
        check: Check::Exact,
        category: Category::Second,
    },
    Row {
        field: Field::Venue,
        check: Check::Exact,
        category: Category::Second,
    },
    Row {
        field: Field::Compression,
        check: Check::Exact,
        category: Category::Second,
    },
    Row {
        field: Field::Price,
        check: Check::OnePercent,
        category: Category::Second,
    },
    Row {
        field: Field::PriceNotation,
        check: Check::Exact,
        category: Category::First,
    },
    Row {
        field: Field::PriceCurrency,
        check: Check::Exact,
        category: Category::First,
    },
    Row {
        field: Field::Notional,
        check: Check::WholeNumber,
        category: Category::First,
    },
    Row {
        field: Field::ExecutionTimestamp,
        check: Check::WithinAnHour,
        category: Category::Second,
    },
    Row {
        field: Field::ClearingTimestamp,
        check: Check::SameDate,
        category: Category::Second,
    },
    Row {
        field: Field::ExchangeRate1,
        check: Check::OnePercent,
        category: Category::Second,
    },
];

#[tactic(auto, unfolding(crate::specs::Published::published))]
fn row_at(field: usize) -> Option<&'static Row>
    ensures { option_copied result ≡ slice_get published field }
{
    ROWS.get(field)
}

fn by_isin(kind: Option<ProductIdKind>) -> bool
    ensures { result ≡ by_isin kind }
{
    matches!(kind, Some(ProductIdKind::Isin))
}

fn by_aii_or_basket(kind: Option<UnderlyingKind>) -> bool
    ensures { result ≡ by_aii_or_basket kind }
{
    matches!(kind, Some(UnderlyingKind::Aii | UnderlyingKind::Basket))
}

// Whether a field is compared at all, by what names the two products and their underlyings.
fn is_compared(field: Field, first: &Details, second: &Details) -> bool
    ensures { result ≡ is_compared field first.now second.now }
{
    match field {
        Field::ProductId => by_isin(first.product_id_kind) || by_isin(second.product_id_kind),
        Field::UnderlyingId => {
            !(by_aii_or_basket(first.underlying_kind) || by_aii_or_basket(second.underlying_kind))
        }
        _ => true,
    }
}

fn row_finding(row: &Row, first: &Details, second: &Details) -> Finding
    ensures { finding_number result ≡ finding_number (row_finding row.now first.now second.now) }
{
    if is_compared(row.field, first, second) {
        check_field(row.check, row.field, first, second)
    } else {
        Finding::NotCompared
    }
}

// The published table, Appendix 1 of the KDPW_TR procedure.
#[derive(Clone, Copy)]
pub struct KdpwSheet;

impl Sheet for KdpwSheet {
    ghost meaning = { λ _. kdpw };

    fn field_count(&self) -> usize {
        ROWS.len()
    }

    fn category(&self, field: usize) -> Category {
        match row_at(field) {
            Some(row) => row.category,
            None => Category::Third,
        }
    }

    fn finding(&self, field: usize, first: &Details, second: &Details) -> Finding {
        match row_at(field) {
            Some(row) => row_finding(row, first, second),
            None => Finding::NotCompared,
        }
    }
}
