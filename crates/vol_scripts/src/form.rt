//! The forms of a play's report.

/// The form of the report of a play.
#[derive(Drop)]
pub enum ReportForm {
    /// Lines, with these bytes after them.
    Lines(Vec<u8>),
    /// One JSON object, on one line.
    Json,
}
