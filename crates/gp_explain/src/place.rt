//! What stands at each part of a line of a trace, by the part before it: a code, the delay of a burst, or anything
//! else.
ghost use Rattle.std.specs.Prelude.{◌≡◌};
ghost use Rattle.gp_explain.specs.Runs.{is_code};
ghost use Rattle.gp_explain.specs.Words as spec;

/// What stands at a part of a line.
#[derive(Clone, Copy, Debug, PartialEq, Eq)]
pub enum Place {
    /// A word or a number.
    Word,
    /// The round-trip delay of a burst.
    Delay,
    /// The code of a unit's message.
    UnitCode,
    /// The code of a message of the line terminal.
    TerminalCode,
}

impl Place {
    /// Tells whether a code should stand here.
    pub(crate) fn is_code(self) -> bool
        ensures { result ≡ is_code self }
    {
        matches!(self, Place::UnitCode | Place::TerminalCode)
    }

    /// Gives what stands behind a part that stands here.
    pub(crate) fn after(self, part: &[u8]) -> Place
        ensures { result ≡ spec.place_after self part.now }
    {
        match self {
            Place::Delay => Place::UnitCode,
            Place::Word | Place::UnitCode | Place::TerminalCode => after_word(part),
        }
    }
}

/// Gives what stands behind a word.
fn after_word(part: &[u8]) -> Place
    ensures { result ≡ spec.place_after_word part.now }
{
    match part {
        b"burst" => Place::Delay,
        b"sent" => Place::TerminalCode,
        _ => Place::Word,
    }
}
