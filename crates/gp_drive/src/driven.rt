//! How many lines a drive answered, and how many of them by an error; and what it leaves.
use gp_flow::LinesFault;

/// How many lines a drive answered.
#[derive(Clone, Copy, Debug, PartialEq, Eq)]
pub struct Driven {
    /// All lines of its input, remarks and empty ones among them.
    pub lines: u64,
    /// Those that were answered by an error line: they were no turns, or the grant up to which they asked for frames
    /// was made in none of these.
    pub errors: u64,
}

/// How lines were answered, and what they were answered on, as the last one left it.
///
/// It has no `Drop`: its player is closed.
pub struct Drove<P> {
    /// The player.
    pub player: P,
    /// How many lines there were, or why not all were answered.
    pub driven: Result<Driven, LinesFault>,
}
