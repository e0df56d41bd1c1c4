//! What a time without a unit is counted in.
ghost use Rattle.std.specs.Prelude.{◌≡◌};
ghost use Rattle.line_columns.specs.Rows.{unit_text};

/// What a time without a unit is counted in.
#[derive(Clone, Copy, Debug, PartialEq, Eq)]
pub enum TimeUnit {
    /// Of 125 microseconds.
    Frames,
    Nanoseconds,
    Microseconds,
    Milliseconds,
    Seconds,
}

impl TimeUnit {
    /// Gives what is written behind a time: nothing for frames.
    pub(crate) fn text(self) -> &'static [u8]
        ensures { result.now ≡ unit_text self }
    {
        match self {
            TimeUnit::Frames => b"",
            TimeUnit::Nanoseconds => b"ns",
            TimeUnit::Microseconds => b"us",
            TimeUnit::Milliseconds => b"ms",
            TimeUnit::Seconds => b"s",
        }
    }
}
