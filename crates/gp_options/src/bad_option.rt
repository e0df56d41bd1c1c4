//! The first option that can't be read, with what stands there, and its text.

use thiserror::Error;

/// The rules, as they are named.
const RULES: &str =
    "garbled, copies, range, barred, unasked, taken, renumbered, nobody, unranged, delay, early, \
shared, not-held, grant, disabled, anew, number, acknowledge, drift";

/// An option that can't be read, and what stands there.
#[derive(Clone, Copy, Debug, PartialEq, Eq, Error)]
pub enum BadOption<'a> {
    /// Of rules, a name that none has.
    #[error("no rule is called \"{0}\"; the rules are {rules}", rules = RULES)]
    Rule(&'a str),
    /// No rule is left to tell that is judged on a side that is told.
    #[error("--side, --only, --without and --midway leave no rule to tell; of units alone are disabled, anew, number, \
acknowledge and drift, of both sides garbled, of the terminal alone all others; --midway judges no unasked")]
    NoRule,
    /// An equalized delay.
    #[error("--teqd {0} is no delay; it is T or PORT=T, T below 2^32 bit times, PORT 0 to 15")]
    Delay(&'a str),
    /// Frames that end before they begin.
    #[error("--from {from} is behind --to {to}")]
    Frames {
        /// The first.
        from: u64,
        /// The last.
        to: u64,
    },
}
