//! What is said of a line: that it is the line of a turn that may be taken, or in which way it can't be.

/// What is said of a line.
#[derive(Clone, Copy, Debug, PartialEq, Eq)]
pub enum Verdict {
    /// It is the line of a turn that may be taken, and that turn is taken.
    Follows,
    /// It is no line of a trace.
    NotALine,
    /// It tells of a port that is not there.
    NoPort,
    /// Its number is not the next one of its port.
    WrongNumber,
    /// The machine gives another line for this event, whatever free number it hands out; or it writes the same line
    /// in other words.
    NotAStep,
    /// It is too long to be looked at.
    TooLong,
}
