//! Parts of a text.
ghost use Rattle.std.specs.Prelude.{◌≡◌, ◌≤◌, ℕ, Bool, IfSome, length, position};
ghost use Rattle.line_columns.specs.Layout as layouts;
ghost use Rattle.line_columns.specs.Texts as spec;
ghost use Rattle.line_columns.specs.Fields.{is_octet};

/// Cuts a text at this place, or at its end.
pub(crate) fn cut(text: &[u8], at: Option<usize>) -> (&[u8], &[u8])
    requires { IfSome at (λ at. at ≤ length text.now) }
    ensures { (is : ℕ → Bool) → at ≡ position is text.now
        → (result.0.now ≡ spec.before is text.now) × (result.1.now ≡ spec.from is text.now) }
{
    text.split_at(at.unwrap_or(text.len()))
}

/// Tells whether an octet is no space.
fn is_no_space(octet: u8) -> bool
    ensures { result ≡ spec.is_no_space octet }
{
    octet != b' '
}

/// Gives the place of the first octet that is no space.
fn first_other(text: &[u8]) -> Option<usize>
    ensures { result ≡ position spec.is_no_space text.now }
{
    text.iter().position(|octet| is_no_space(*octet))
}

/// Gives a text without the spaces in front.
#[tactic(auto, unfolding(crate::specs::Texts::trimmed))]
pub(crate) fn trimmed(text: &[u8]) -> &[u8]
    ensures { result.now ≡ spec.trimmed text.now }
{
    let (_, rest) = cut(text, first_other(text));
    rest
}

/// Gives a text without the white space at its end.
#[tactic(auto, unfolding(crate::specs::Texts::trimmed_end))]
pub(crate) fn trimmed_end(text: &[u8]) -> &[u8]
    ensures { result.now ≡ spec.trimmed_end text.now }
{
    text.trim_ascii_end()
}

/// Gives the place of the first of these octets.
pub(crate) fn first_octet(octet: u8, text: &[u8]) -> Option<usize>
    ensures { result ≡ position (is_octet octet) text.now }
{
    text.iter().position(|other| *other == octet)
}

/// Gives a text without a byte order mark in front.
fn without_order_mark(line: &[u8]) -> &[u8]
    ensures { result.now ≡ layouts.without_order_mark line.now }
{
    match line {
        [0xEF, 0xBB, 0xBF, text @ ..] => text,
        _ => line,
    }
}

/// Gives a text without a carriage return at its end.
fn without_return(line: &[u8]) -> &[u8]
    ensures { result.now ≡ layouts.without_return line.now }
{
    match line.strip_suffix(b"\r") {
        Some(text) => text,
        None => line,
    }
}

/// Gives the text of a line: neither a byte order mark in front nor a carriage return at the end is a part of it.
pub(crate) fn text_of(line: &[u8]) -> &[u8]
    ensures { result.now ≡ layouts.text_of line.now }
{
    without_return(without_order_mark(line))
}
