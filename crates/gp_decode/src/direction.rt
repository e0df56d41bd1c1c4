//! Whose messages the codes of an input are.
ghost use Rattle.std.specs.Prelude.{◌≡◌};
ghost use Rattle.gp_decode.specs.LineText.{direction_of};

/// Whose messages the codes of an input are.
#[derive(Clone, Copy, Debug, PartialEq, Eq)]
pub enum Direction {
    /// Each is a unit's.
    Up,
    /// Each is one of the line terminal.
    Down,
    /// Each line says it, by `up` or `down` and a space before the code.
    Each,
}

impl Direction {
    /// Gives the direction of codes that are all of one.
    pub fn of(upstream: bool) -> Direction
        ensures { result ≡ direction_of upstream }
    {
        if upstream {
            Direction::Up
        } else {
            Direction::Down
        }
    }
}
