//! `Layout`, how lines are laid out, and what is read of a line.
ghost use Rattle.std.specs.Prelude.{◌≡◌, ◌++◌, [], IfOk, OnOk};
ghost use Rattle.line_columns.specs.Layout as spec;
ghost use Rattle.line_columns.specs.Rows.{row_of};

use crate::columns::Columns;
use crate::push::push_row;
use crate::row::row_of;
use crate::text::text_of;
use crate::timed::push_timed;
use crate::unit::TimeUnit;
use std::alloc::{AllocError, Global};
use std::marker::Model;

/// How lines are laid out. Contracts see the unit of a bare time, the columns, and the line that names them, which is
/// empty where none does.
#[derive(Drop)]
pub struct Layout {
    unit: TimeUnit,
    columns: Option<Columns>,
    heading: Vec<u8>,
}

impl Model for Layout {
    ghost use Rattle.line_columns.specs.Layout.{LayoutState};

    ghost Value = { LayoutState };

    ghost view = { λ l. record { unit = l.unit; columns = l.columns; heading = l.heading.items } };
}

impl Layout {
    /// Lines as they are.
    pub fn as_they_are(alloc: Global) -> Layout
        ensures { result ≡ spec.as_they_are }
    {
        Layout::plain(alloc, TimeUnit::Frames)
    }

    /// Lines without columns, whose times have this unit where they have none.
    pub fn plain(alloc: Global, unit: TimeUnit) -> Layout
        ensures { result ≡ record { unit = unit; columns = None; heading = [] } }
    {
        Layout {
            unit,
            columns: None,
            heading: Vec::new(alloc),
        }
    }

    /// Lines with these columns. A line that is the heading says nothing; an empty heading is none. It is kept, in memory
    /// of its own.
    pub fn columned(
        alloc: Global,
        unit: TimeUnit,
        columns: Columns,
        heading: &[u8],
    ) -> Result<Layout, AllocError>
        ensures { IfOk result (λ layout. layout
            ≡ record { unit = unit; columns = Some columns; heading = spec.text_of heading.now }) }
    {
        let mut kept = Vec::new(alloc);
        kept.extend_from_slice(text_of(heading))?;
        Ok(Layout {
            unit,
            columns: Some(columns),
            heading: kept,
        })
    }
}

/// Tells whether a line says nothing: it is empty or a remark.
fn is_remark(text: &[u8]) -> bool
    ensures { result ≡ spec.is_remark text.now }
{
    matches!(text, [] | [b'#', ..])
}

/// Appends the line that is made of one with columns, or one that isn't read.
fn push_laid(
    out: &mut Vec<u8>,
    unit: TimeUnit,
    columns: &Columns,
    text: &[u8],
) -> Result<(), AllocError>
    ensures { OnOk result (out.new.items
        ≡ out.old.items ++ spec.row_or_unread unit text.now (row_of columns.now text.now)) }
{
    match row_of(columns, text) {
        Some(row) => push_row(out, unit, &row),
        None => {
            out.extend_from_slice(b"? ")?;
            out.extend_from_slice(text)
        }
    }
}

/// Appends what is read of a line with columns.
fn push_columned(
    out: &mut Vec<u8>,
    unit: TimeUnit,
    heading: &[u8],
    columns: &Columns,
    text: &[u8],
) -> Result<(), AllocError>
    ensures { OnOk result
        (out.new.items ≡ out.old.items ++ spec.laid unit heading.now columns.now text.now) }
{
    if is_remark(text) {
        return out.extend_from_slice(text);
    }
    if text == heading {
        return Ok(());
    }
    push_laid(out, unit, columns, text)
}

/// Gives what is read of a line, which comes without its line feed: the line itself where lines are as they are, and
/// else a text in this room, which takes more memory where it has too little.
pub fn plain_of<'a>(
    layout: &Layout,
    line: &'a [u8],
    room: &'a mut Vec<u8>,
) -> Result<&'a [u8], AllocError>
    ensures { IfOk result (λ plain. plain.now ≡ spec.plain_of layout.now line.now) }
{
    room.clear();
    match (layout.columns, layout.unit) {
        (None, TimeUnit::Frames) => Ok(line),
        (None, unit) => {
            push_timed(room, unit, text_of(line))?;
            Ok(room.as_slice())
        }
        (Some(columns), unit) => {
            let heading = layout.heading.as_slice();
            push_columned(room, unit, heading, &columns, text_of(line))?;
            Ok(room.as_slice())
        }
    }
}
