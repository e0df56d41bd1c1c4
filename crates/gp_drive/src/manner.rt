//! In what manner lines are answered: as they are, with a line behind each answer that ends it, or with what light
//! does.

/// In what manner lines are answered.
#[derive(Clone, Copy, Debug, PartialEq, Eq)]
pub struct DriveManner {
    /// Whether the answer to each line, also to one that asks for nothing, ends with `done LINE`, where LINE counts all
    /// lines from 1.
    pub done: bool,
    /// Whether it is told when light comes or goes at a simulated unit, by `unit I light` or `unit I dark`: behind the
    /// event of the script with which it does, and as the answer to the line that asks for it.
    pub lights: bool,
}

/// Answers are as they are.
pub(crate) const UNTOLD: DriveManner = DriveManner {
    done: false,
    lights: false,
};
