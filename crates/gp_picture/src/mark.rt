//! Marks, and the rows in which they stand.

use crate::moment::Moment;
use crate::room::Room;
use gp_alarms::AlarmKind;
use gp_observer::Rule;
use gp_ranging::Grant;
use std::alloc::{AllocError, Global};

/// What a mark tells.
#[derive(Clone, Copy)]
pub(crate) enum MarkKind {
    /// A window closed without an answer.
    Unanswered(Grant),
    /// An alarm was given.
    Alarm(AlarmKind),
    /// A rule was broken.
    Broken(Rule),
    /// The time of a line is before that of its port.
    Time,
}

/// A mark.
#[derive(Clone, Copy)]
pub(crate) struct Mark {
    pub(crate) kind: MarkKind,
    pub(crate) at: Moment,
    /// The frame in which it ends.
    pub(crate) last: u64,
    /// How many marks behind it are kept as one with it.
    pub(crate) more: u64,
}

/// A row of marks.
#[derive(Drop)]
pub(crate) struct Row {
    pub(crate) marks: Vec<Mark>,
}

impl Mark {
    /// Gives this mark where another stands behind it that is drawn as one with it.
    pub(crate) fn joined(self, other: &Mark) -> Mark {
        Mark {
            last: self.last.max(other.last),
            more: self.more.saturating_add(other.more).saturating_add(1),
            ..self
        }
    }
}

/// Keeps a mark, as one with the mark before it where both are in one column.
fn keep_mark(marks: &mut Vec<Mark>, room: &mut Room, mark: Mark) -> Result<(), AllocError> {
    match marks.last_mut() {
        Some(last) if room.are_one(last.at.frame, mark.at.frame) => {
            *last = last.joined(&mark);
        }
        _ => {
            room.count();
            marks.push(mark)?;
        }
    }
    Ok(())
}

impl Row {
    /// Makes one with no mark in it.
    pub(crate) fn new(alloc: Global) -> Row {
        Row {
            marks: Vec::new(alloc),
        }
    }

    /// Keeps a mark, unless it ends before what is drawn.
    pub(crate) fn keep(&mut self, room: &mut Room, mark: Mark) -> Result<(), AllocError> {
        if mark.last < room.from {
            return Ok(());
        }
        keep_mark(&mut self.marks, room, mark)
    }

    /// Keeps its marks anew, in the columns of this room.
    pub(crate) fn keep_anew(&mut self, room: &mut Room) -> Result<(), AllocError> {
        let mut marks = Vec::new(room.alloc);
        for mark in self.marks.as_slice() {
            keep_mark(&mut marks, room, *mark)?;
        }
        self.marks = marks;
        Ok(())
    }
}
