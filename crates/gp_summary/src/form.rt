//! How a summary is told.

/// How a summary is told.
#[derive(Clone, Copy, Debug, PartialEq, Eq)]
pub enum SummaryForm {
    /// A line of text for each port, each unit and the licences.
    Text,
    /// A JSON object for each, on a line of its own.
    Json,
}
