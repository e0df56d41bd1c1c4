//! A unit's lane in the picture: a span for what it does, up to its next change. Changes at one place are drawn as the
//! last of them.

use crate::lane::{Change, Lane};
use crate::scale::Scale;
use crate::state::UnitState;
use crate::text::{Shape, push_label, push_row, push_shape, text_width};
use gp_serial::SerialText;
use std::alloc::{AllocError, Global};

/// How narrow a span may be, in units.
const LEAST_SPAN: u64 = 2;

/// How far the text of a span stands from its ends, in units.
const TEXT_GAP: u64 = 6;

/// Gives how a span looks.
fn class_of(state: UnitState) -> &'static str {
    match state {
        UnitState::Asking => "k",
        UnitState::Ranging(_) => "r",
        UnitState::Operating(_) => "o",
        UnitState::Removed(_) => "x",
    }
}

/// Gives how the text of a span looks.
fn text_class(state: UnitState) -> &'static str {
    match state {
        UnitState::Operating(_) => "i",
        UnitState::Asking | UnitState::Ranging(_) | UnitState::Removed(_) => "t",
    }
}

/// Gives the text of a span.
fn text_of(alloc: Global, state: UnitState) -> Result<String, AllocError> {
    let mut text = String::new(alloc);
    match state {
        UnitState::Asking => {}
        UnitState::Ranging(onu) | UnitState::Operating(onu) => write!(text, "ONU-ID {onu}")?,
        UnitState::Removed(cause) => text.push_str(cause.name())?,
    }
    Ok(text)
}

/// Gives the name of a span.
fn name_of(alloc: Global, state: UnitState) -> Result<String, AllocError> {
    let mut name = String::new(alloc);
    match state {
        UnitState::Asking => name.push_str("asking")?,
        UnitState::Ranging(onu) => write!(name, "ranging with ONU-ID {onu}")?,
        UnitState::Operating(onu) => write!(name, "operating with ONU-ID {onu}")?,
        UnitState::Removed(cause) => {
            let cause = cause.name();
            write!(name, "removed by {cause}")?;
        }
    }
    Ok(name)
}

/// Appends the text of a span, where there is room for it.
fn push_span_text(
    out: &mut String,
    alloc: Global,
    shape: Shape<'_>,
    state: UnitState,
) -> Result<(), AllocError> {
    let text = text_of(alloc, state)?;
    let width = text_width(text.as_str()).saturating_add(2 * TEXT_GAP);
    if text.is_empty() || width > shape.width {
        return Ok(());
    }
    let x = shape.x.saturating_add(TEXT_GAP);
    push_label(out, text_class(state), x, shape.y, text.as_str())
}

/// Appends the span that begins with a change, up to this place.
fn push_span(
    out: &mut String,
    alloc: Global,
    scale: Scale,
    y: u64,
    change: &Change,
    end: u64,
) -> Result<(), AllocError> {
    let x = scale.place(change.at.frame);
    let shape = Shape {
        class: class_of(change.state),
        x,
        y,
        width: end.saturating_sub(x).max(LEAST_SPAN),
    };
    let name = name_of(alloc, change.state)?;
    push_shape(out, shape, name.as_str(), &change.at, change.more)?;
    push_span_text(out, alloc, shape, change.state)
}

/// Appends the spans of a lane, up to this place. Changes at one place are drawn as the last of them.
fn push_spans(
    out: &mut String,
    alloc: Global,
    scale: Scale,
    y: u64,
    changes: &[Change],
    end: u64,
) -> Result<(), AllocError> {
    let mut before: Option<Change> = None;
    for change in changes {
        let x = scale.place(change.at.frame);
        before = match before {
            Some(last) if x <= scale.place(last.at.frame) => Some(change.behind(&last)),
            Some(last) => {
                push_span(out, alloc, scale, y, &last, x)?;
                Some(*change)
            }
            None => Some(*change),
        };
    }
    match before {
        Some(last) => push_span(out, alloc, scale, y, &last, end),
        None => Ok(()),
    }
}

/// Appends the lane of a unit, up to this place, if it is drawn, and gives where the next one stands.
pub(crate) fn push_lane(
    out: &mut String,
    alloc: Global,
    scale: Scale,
    y: u64,
    lane: &Lane,
    end: u64,
) -> Result<u64, AllocError> {
    if lane.is_past(scale.from) {
        return Ok(y);
    }
    push_row(out, y, SerialText::of(&lane.serial).as_str())?;
    push_spans(out, alloc, scale, y, lane.changes.as_slice(), end)?;
    Ok(y.saturating_add(16))
}
