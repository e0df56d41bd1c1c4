//! The words that tell what a line of a log is of.
ghost use Rattle.std.specs.Prelude.{◌≡◌};
ghost use Rattle.gp_log.specs.Says as spec;

/// What a line of a log is of.
#[derive(Clone, Copy)]
pub(crate) enum Kind {
    /// A message of the line terminal.
    Down,
    /// A message of a unit.
    Up,
    /// A grant.
    Grant,
}

/// Tells whether two words are the same, whatever the case of their letters.
fn is_spelled(word: &[u8], other: &[u8]) -> bool
    ensures { result ≡ spec.is_spelled word.now other.now }
{
    word.eq_ignore_ascii_case(other)
}

/// Tells whether a word is one for a message of the line terminal.
fn is_down(word: &[u8]) -> bool
    ensures { result ≡ spec.is_down word.now }
{
    is_spelled(word, b"down")
        || is_spelled(word, b"ds")
        || is_spelled(word, b"d")
        || is_spelled(word, b"downstream")
}

/// Tells whether a word is one for a message of a unit.
fn is_up(word: &[u8]) -> bool
    ensures { result ≡ spec.is_up word.now }
{
    is_spelled(word, b"up")
        || is_spelled(word, b"us")
        || is_spelled(word, b"u")
        || is_spelled(word, b"upstream")
}

impl Kind {
    /// Tells which of these a word names, in any case: `down`, `ds`, `d`, `downstream`; `up`, `us`, `u`, `upstream`;
    /// `grant`.
    #[tactic(auto, unfolding(crate::specs::Says::kind_of))]
    pub(crate) fn from_word(word: &[u8]) -> Option<Kind>
        ensures { result ≡ spec.kind_of word.now }
    {
        if is_down(word) {
            Some(Kind::Down)
        } else if is_up(word) {
            Some(Kind::Up)
        } else if is_spelled(word, b"grant") {
            Some(Kind::Grant)
        } else {
            None
        }
    }
}
