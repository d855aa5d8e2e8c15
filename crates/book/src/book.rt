// A book.
mod closing_day;
mod lookup;
mod opening;
mod reporting;
mod view;

use business::business_day::BusinessDay;
use rows::row::Row;

// The rows that a host lends, as a book: the first `used` of them are used, and stand in the order of their keys. The host
// fixes the memory, and gets its rows back when the book ends; until then only the book's calls change them.
#[derive(Drop)]
pub struct Book<'t> {
    day: BusinessDay,
    used: usize,
    rows: &'t mut [Row],
}
