//! A port in the picture: the numbers of frames, the rows of its marks, and the lanes of its units, one below the
//! other.

use crate::lane_text::push_lane;
use crate::mark_text::{RowStyle, push_mark_row};
use crate::port::Port;
use crate::scale::Scale;
use std::alloc::{AllocError, Global};

/// Where the rows of a port begin below its top, in units.
const ROWS_TOP: u64 = 16;

/// How far the next port stands below the last row, in units.
const PORT_GAP: u64 = 16;

/// Appends a frame's number at this place, and a line through the rows below.
fn push_tick(
    out: &mut String,
    class: &str,
    x: u64,
    frame: u64,
    height: u64,
) -> Result<(), AllocError> {
    write!(
        out,
        "<text class=\"{class}\" x=\"{x}\" dy=\"10\">{frame}</text>\n"
    )?;
    write!(
        out,
        "<rect class=\"v\" x=\"{x}\" y=\"14\" width=\"1\" height=\"{height}\"/>\n"
    )
}

/// Appends the numbers of frames that are drawn: the first, three between, and the last.
fn push_ticks(out: &mut String, scale: Scale, height: u64) -> Result<(), AllocError> {
    push_tick(out, "l", 0, scale.from, height)?;
    let mut before = scale.from;
    for part in 1..4u64 {
        let frame = scale.quarter(part);
        if frame > before && frame < scale.to {
            push_tick(out, "m", scale.place(frame), frame, height)?;
            before = frame;
        }
    }
    if scale.to > scale.from {
        push_tick(out, "n", 1_000, scale.to, height)?;
    }
    Ok(())
}

/// Appends the rows of marks, and gives where the lanes begin.
fn push_mark_rows(
    out: &mut String,
    alloc: Global,
    scale: Scale,
    port: &Port,
) -> Result<u64, AllocError> {
    let style = RowStyle {
        name: "unanswered",
        class: "w",
        y: ROWS_TOP,
        scale,
    };
    let y = push_mark_row(out, alloc, style, port.unanswered.marks.as_slice())?;
    let style = RowStyle {
        name: "alarms",
        class: "a",
        y,
        scale,
    };
    let y = push_mark_row(out, alloc, style, port.alarms.marks.as_slice())?;
    let style = RowStyle {
        name: "rules broken",
        class: "f",
        y,
        scale,
    };
    push_mark_row(out, alloc, style, port.findings.marks.as_slice())
}

/// Appends the lanes of a port that has had so many frames, one below the other from here on, and gives where they end.
fn push_lanes(
    out: &mut String,
    alloc: Global,
    scale: Scale,
    top: u64,
    port: &Port,
    frame: u64,
) -> Result<u64, AllocError> {
    let end = scale.place(frame.min(scale.to).saturating_add(1));
    let mut y = top;
    for lane in port.lanes.as_slice() {
        y = push_lane(out, alloc, scale, y, lane, end)?;
    }
    Ok(y)
}

/// Appends a port that has had so many frames, which begins here, and gives where the next one does.
pub(crate) fn push_port(
    out: &mut String,
    alloc: Global,
    scale: Scale,
    number: u8,
    port: &Port,
    frame: u64,
    top: u64,
) -> Result<u64, AllocError> {
    let mut rows = String::new(alloc);
    let lanes_top = push_mark_rows(&mut rows, alloc, scale, port)?;
    let end = push_lanes(&mut rows, alloc, scale, lanes_top, port, frame)?;
    write!(out, "<g transform=\"translate(220 {top})\">\n")?;
    write!(
        out,
        "<text class=\"h\" x=\"-8\" dy=\"10\">port {number}</text>\n"
    )?;
    push_ticks(out, scale, end.saturating_sub(ROWS_TOP))?;
    out.push_str(rows.as_str())?;
    out.push_str("</g>\n")?;
    Ok(top.saturating_add(end).saturating_add(PORT_GAP))
}
