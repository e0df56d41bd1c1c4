//! In what form lines are told: as they are, in words, or as JSON.

/// What lines are told as.
#[derive(Clone, Copy, Debug, PartialEq, Eq)]
pub enum Form {
    /// As they are.
    Plain,
    /// With the words of their codes.
    Words,
    /// As JSON objects.
    Json,
}
