//! The words of a line without columns.
ghost use Rattle.std.specs.Prelude.{◌≡◌, position};
ghost use Rattle.std.specs.List.{list_all};
ghost use Rattle.line_columns.specs.Layout.{next_word};
ghost use Rattle.line_columns.specs.Texts as spec;

use crate::text::cut;

/// Tells whether an octet parts words.
fn is_separator(octet: u8) -> bool
    ensures { result ≡ spec.is_separator octet }
{
    matches!(octet, b' ' | b'\t' | b',' | b';')
}

/// Tells whether an octet is one of a word.
fn is_of_word(octet: u8) -> bool
    ensures { result ≡ spec.is_of_word octet }
{
    !is_separator(octet)
}

/// Tells whether each octet is one of a word.
fn are_of_word(text: &[u8]) -> bool
    ensures { result ≡ list_all spec.is_of_word text.now }
{
    text.iter().all(|octet| is_of_word(*octet))
}

/// Tells whether a text is one word.
pub(crate) fn is_word(text: &[u8]) -> bool
    ensures { result ≡ spec.is_word text.now }
{
    !text.is_empty() && are_of_word(text)
}

/// Tells whether an octet is one of a number.
fn is_of_number(octet: u8) -> bool
    ensures { result ≡ spec.is_of_number octet }
{
    octet.is_ascii_digit() || octet == b'.'
}

/// Tells whether each octet is one of a number.
fn are_of_number(text: &[u8]) -> bool
    ensures { result ≡ list_all spec.is_of_number text.now }
{
    text.iter().all(|octet| is_of_number(*octet))
}

/// Tells whether a text is a number without a unit.
pub(crate) fn is_bare(text: &[u8]) -> bool
    ensures { result ≡ spec.is_bare text.now }
{
    !text.is_empty() && are_of_number(text)
}

/// Tells whether two words are the same, whatever the case of their letters.
fn is_spelled(word: &[u8], other: &[u8]) -> bool
    ensures { result ≡ spec.is_spelled word.now other.now }
{
    word.eq_ignore_ascii_case(other)
}

/// Tells whether a word is one for a message of the line terminal.
fn is_down(word: &[u8]) -> bool
    ensures { result ≡ spec.is_down word.now }
{
    is_spelled(word, b"down")
        || is_spelled(word, b"ds")
        || is_spelled(word, b"d")
        || is_spelled(word, b"downstream")
}

/// Tells whether a word is one for a message of a unit.
pub(crate) fn is_up(word: &[u8]) -> bool
    ensures { result ≡ spec.is_up word.now }
{
    is_spelled(word, b"up")
        || is_spelled(word, b"us")
        || is_spelled(word, b"u")
        || is_spelled(word, b"upstream")
}

/// Tells whether a word is the one for a grant.
pub(crate) fn is_grant(word: &[u8]) -> bool
    ensures { result ≡ spec.is_grant word.now }
{
    is_spelled(word, b"grant")
}

/// Tells whether a word is one that stands behind a time.
pub(crate) fn is_direction(word: &[u8]) -> bool
    ensures { result ≡ spec.is_direction word.now }
{
    is_down(word) || is_up(word) || is_grant(word)
}

/// Gives the place of the first octet of a word.
fn first_of_word(text: &[u8]) -> Option<usize>
    ensures { result ≡ position spec.is_of_word text.now }
{
    text.iter().position(|octet| is_of_word(*octet))
}

/// Gives the place of the first octet that parts words.
fn first_separator(text: &[u8]) -> Option<usize>
    ensures { result ≡ position spec.is_separator text.now }
{
    text.iter().position(|octet| is_separator(*octet))
}

/// Gives the first word of a text, empty where there is none, and what stands behind it.
#[tactic(auto, unfolding(crate::specs::Layout::next_word))]
pub(crate) fn next_word(text: &[u8]) -> (&[u8], &[u8])
    ensures { next_word text.now ≡ (result.0.now, result.1.now) }
{
    let (_, rest) = cut(text, first_of_word(text));
    cut(rest, first_separator(rest))
}
