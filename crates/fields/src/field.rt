// The one-letter fields of a report.
pub mod detail;
pub mod report;
