//! A script and what stands beside it.

/// What stands beside a script.
#[derive(Clone, Copy, Debug, PartialEq, Eq)]
pub enum Beside {
    /// Nothing: there is nothing to compare with.
    Nothing,
    /// The trace that it has to write.
    Trace,
    /// What is told of it, since it is wrong.
    Faults,
    /// Both of them, of which one can't be right.
    Both,
}

/// A script of a folder.
#[derive(Debug, Drop)]
pub struct Case {
    /// The name of its file, without the ending.
    pub name: String,
    /// What stands beside it.
    pub beside: Beside,
}
