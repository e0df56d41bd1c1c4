//! `TotalsForm`: how the totals of a storm are written.

/// How the totals of a storm are written.
#[derive(Clone, Copy, Debug, PartialEq, Eq)]
pub enum TotalsForm {
    /// As five lines, each with a name and its number.
    Lines,
    /// As one JSON object on a line of its own, in which each name has its number.
    Object,
}
