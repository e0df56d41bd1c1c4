//! The elements that a picture is made of.

use crate::moment::Moment;
use std::alloc::AllocError;

/// How wide a character is at most, in units.
const CHARACTER_WIDTH: u64 = 7;

/// A rectangle of a row: how it looks, where it begins, and how wide it is, in units.
#[derive(Clone, Copy)]
pub(crate) struct Shape<'a> {
    pub(crate) class: &'a str,
    pub(crate) x: u64,
    pub(crate) y: u64,
    pub(crate) width: u64,
}

/// Gives how wide a text is at most, in units.
pub(crate) fn text_width(text: &str) -> u64 {
    (text.len() as u64).saturating_mul(CHARACTER_WIDTH)
}

/// Appends an octet of a line. What can't be printed is left out.
fn push_octet(out: &mut String, octet: u8) -> Result<(), AllocError> {
    match octet {
        b'&' => out.push_str("&amp;"),
        b'<' => out.push_str("&lt;"),
        b'>' => out.push_str("&gt;"),
        b'\t' => out.push(' '),
        b' '..=b'~' => out.push(char::from(octet)),
        _ => Ok(()),
    }
}

/// Appends a line.
fn push_line(out: &mut String, text: &[u8]) -> Result<(), AllocError> {
    for octet in text {
        push_octet(out, *octet)?;
    }
    Ok(())
}

/// Appends a rectangle, and what is shown where the pointer rests on it: its name, the line that it stands for, and how
/// many more.
pub(crate) fn push_shape(
    out: &mut String,
    shape: Shape<'_>,
    name: &str,
    at: &Moment,
    more: u64,
) -> Result<(), AllocError> {
    let Shape { class, x, y, width } = shape;
    let line = at.line;
    write!(
        out,
        "<rect class=\"{class}\" x=\"{x}\" y=\"{y}\" width=\"{width}\" height=\"12\"><title>{name}, line {line}: "
    )?;
    push_line(out, at.text())?;
    if more > 0 {
        write!(out, ", {more} more")?;
    }
    out.push_str("</title></rect>\n")
}

/// Appends a text in a row.
pub(crate) fn push_label(
    out: &mut String,
    class: &str,
    x: u64,
    y: u64,
    text: &str,
) -> Result<(), AllocError> {
    write!(
        out,
        "<text class=\"{class}\" x=\"{x}\" y=\"{y}\" dy=\"10\">{text}</text>\n"
    )
}

/// Appends the name of a row, and its ground.
pub(crate) fn push_row(out: &mut String, y: u64, name: &str) -> Result<(), AllocError> {
    write!(
        out,
        "<text class=\"n\" x=\"-8\" y=\"{y}\" dy=\"10\">{name}</text>\n"
    )?;
    write!(
        out,
        "<rect class=\"g\" y=\"{y}\" width=\"1000\" height=\"12\"/>\n"
    )
}
