//! Which column of a line is which, and what parts them.
ghost use Rattle.std.specs.Prelude.{◌≡◌};
ghost use Rattle.line_columns.specs.Rows.{separator_octet};

/// What parts the fields of a line.
#[derive(Clone, Copy, Debug, PartialEq, Eq)]
pub enum Separator {
    Comma,
    Semicolon,
    Tab,
}

impl Separator {
    /// Gives its octet.
    pub(crate) fn octet(self) -> u8
        ensures { result ≡ separator_octet self }
    {
        match self {
            Separator::Comma => b',',
            Separator::Semicolon => b';',
            Separator::Tab => b'\t',
        }
    }
}

/// Which column is which: each number is how many columns stand before it.
#[derive(Clone, Copy, Debug, PartialEq, Eq)]
pub struct Columns {
    /// What parts the columns.
    pub separator: Separator,
    /// When something was said.
    pub time: usize,
    /// Which way it went: `down`, `up`, `grant` and the other words that a log may have.
    pub direction: usize,
    /// The code, or the words of a grant.
    pub code: usize,
    /// The delay of a burst, if there is such a column.
    pub delay: Option<usize>,
    /// The port; without such a column it is 0.
    pub port: Option<usize>,
}
