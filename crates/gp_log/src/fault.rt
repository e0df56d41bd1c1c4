//! What is wrong with a line, of which the first fault is told.

use thiserror::Error;

/// Why a line says nothing. The first fault is told: `Long`, then `Word` where none of `down`, `up` and `grant` stands
/// second or third, then the fault of the port, of the time, and of what stands behind the word, from the left. Of a
/// line of a trace, that of the answer to its frame, from the left.
#[derive(Clone, Copy, Debug, PartialEq, Eq, Error)]
pub enum LogFault {
    /// A word is unknown or missing, or a field is too many.
    #[error("word")]
    Word,
    /// A port, an ONU-ID or a delay that isn't a decimal number, or is too great.
    #[error("number")]
    Number,
    /// A code that isn't 26 hexadecimal digits, as a line may spell them.
    #[error("code")]
    Code,
    /// A time that isn't spelled as one, is no whole number of nanoseconds, or is too great: 2 ^ 64 nanoseconds are.
    #[error("time")]
    Time,
    /// A line of more than `gp_lines::LONGEST_LINE` octets.
    #[error("long")]
    Long,
}
