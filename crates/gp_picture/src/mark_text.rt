//! A row of marks in the picture: marks that would touch are drawn as one, which says how many it stands for.

use crate::mark::{Mark, MarkKind};
use crate::scale::Scale;
use crate::text::{Shape, push_label, push_row, push_shape, text_width};
use gp_finding::rule_name;
use gp_ranging::Grant;
use std::alloc::{AllocError, Global};

/// How narrow a mark may be, in units.
const LEAST_WIDTH: u64 = 4;

/// How far a mark and its name stand from each other, in units.
const NAME_GAP: u64 = 4;

/// How a row of marks is drawn: what they look like, where it stands, and between which frames.
#[derive(Clone, Copy)]
pub(crate) struct RowStyle<'a> {
    pub(crate) name: &'a str,
    pub(crate) class: &'a str,
    pub(crate) y: u64,
    pub(crate) scale: Scale,
}

/// Appends the name of a mark.
fn push_name(out: &mut String, kind: MarkKind) -> Result<(), AllocError> {
    match kind {
        MarkKind::Unanswered(Grant::Search) => out.push_str("search"),
        MarkKind::Unanswered(Grant::Range(onu)) => write!(out, "range {onu}"),
        MarkKind::Unanswered(Grant::Poll(onu)) => write!(out, "poll {onu}"),
        MarkKind::Alarm(kind) => out.push_str(kind.name()),
        MarkKind::Broken(rule) => out.push_str(rule_name(rule)),
        MarkKind::Time => out.push_str("time falls"),
    }
}

/// Gives the name of a mark.
fn name_of(alloc: Global, kind: MarkKind) -> Result<String, AllocError> {
    let mut name = String::new(alloc);
    push_name(&mut name, kind)?;
    Ok(name)
}

/// Gives the name of a mark, and how many more it stands for.
fn label_of(alloc: Global, kind: MarkKind, more: u64) -> Result<String, AllocError> {
    let mut label = name_of(alloc, kind)?;
    if more > 0 {
        write!(label, " +{more}")?;
    }
    Ok(label)
}

/// Gives where a mark begins, and how wide it is.
fn extent(scale: Scale, mark: &Mark) -> (u64, u64) {
    let x = scale.place(mark.at.frame);
    let width = scale.place(mark.last).saturating_sub(x);
    (x, width.max(LEAST_WIDTH))
}

/// Gives where a mark ends.
fn end_of(scale: Scale, mark: &Mark) -> u64 {
    let (x, width) = extent(scale, mark);
    x.saturating_add(width)
}

/// Appends a mark, and its name where that ends before this place. Gives how many marks have no name yet.
fn push_mark(
    out: &mut String,
    alloc: Global,
    style: RowStyle<'_>,
    mark: &Mark,
    unnamed: u64,
    limit: u64,
) -> Result<u64, AllocError> {
    let (x, width) = extent(style.scale, mark);
    let shape = Shape {
        class: style.class,
        x,
        y: style.y,
        width,
    };
    let name = name_of(alloc, mark.kind)?;
    push_shape(out, shape, name.as_str(), &mark.at, mark.more)?;
    let more = unnamed.saturating_add(mark.more);
    let label = label_of(alloc, mark.kind, more)?;
    let begin = x.saturating_add(width).saturating_add(NAME_GAP);
    if begin.saturating_add(text_width(label.as_str())) > limit {
        return Ok(more.saturating_add(1));
    }
    push_label(out, "l", begin, style.y, label.as_str())?;
    Ok(0)
}

/// Appends marks, of which those that would touch are drawn as one.
fn push_marks(
    out: &mut String,
    alloc: Global,
    style: RowStyle<'_>,
    marks: &[Mark],
) -> Result<(), AllocError> {
    let mut before: Option<Mark> = None;
    let mut unnamed = 0;
    for mark in marks {
        let x = style.scale.place(mark.at.frame);
        before = match before {
            Some(last) if x <= end_of(style.scale, &last) => Some(last.joined(mark)),
            Some(last) => {
                unnamed = push_mark(out, alloc, style, &last, unnamed, x)?;
                Some(*mark)
            }
            None => Some(*mark),
        };
    }
    if let Some(last) = before {
        push_mark(out, alloc, style, &last, unnamed, u64::MAX)?;
    }
    Ok(())
}

/// Appends a row of marks, if there are any, and gives where the next row stands.
pub(crate) fn push_mark_row(
    out: &mut String,
    alloc: Global,
    style: RowStyle<'_>,
    marks: &[Mark],
) -> Result<u64, AllocError> {
    if marks.is_empty() {
        return Ok(style.y);
    }
    push_row(out, style.y, style.name)?;
    push_marks(out, alloc, style, marks)?;
    Ok(style.y.saturating_add(16))
}
