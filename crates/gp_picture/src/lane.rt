//! The lane of a unit: its changes, one after another.

use crate::moment::{Moment, Place};
use crate::room::Room;
use crate::state::{Cause, UnitState};
use gp_ploam::Serial;
use std::alloc::{AllocError, Global};

/// From here on a unit does this.
#[derive(Clone, Copy)]
pub(crate) struct Change {
    pub(crate) at: Moment,
    pub(crate) state: UnitState,
    /// How many changes before it are kept as one with it.
    pub(crate) more: u64,
}

/// The lane of a unit.
#[derive(Drop)]
pub(crate) struct Lane {
    pub(crate) serial: Serial,
    pub(crate) changes: Vec<Change>,
}

impl Change {
    /// Gives this change where others come before it that are drawn as one with it.
    pub(crate) fn behind(self, before: &Change) -> Change {
        Change {
            more: self.more.saturating_add(before.more).saturating_add(1),
            ..self
        }
    }

    /// Gives this change where it is kept in the place of another. One before the first frame is forgotten.
    fn in_place_of(self, before: &Change, from: u64) -> Change {
        if before.at.frame < from {
            return self;
        }
        self.behind(before)
    }
}

/// Keeps a change behind others, in the place of the one before it where both are kept as one.
fn keep_change(
    changes: &mut Vec<Change>,
    room: &mut Room,
    change: Change,
) -> Result<(), AllocError> {
    match changes.last_mut() {
        Some(last) if room.are_one(last.at.frame, change.at.frame) => {
            *last = change.in_place_of(last, room.from);
        }
        _ => {
            room.count();
            changes.push(change)?;
        }
    }
    Ok(())
}

impl Lane {
    /// Makes one with no change in it.
    pub(crate) fn new(alloc: Global, serial: Serial) -> Lane {
        Lane {
            serial,
            changes: Vec::new(alloc),
        }
    }

    /// Gives what the unit does at the end.
    pub(crate) fn state(&self) -> Option<UnitState> {
        let last = self.changes.last()?;
        Some(last.state)
    }

    /// Keeps that the unit does this from here on, unless it does so already.
    pub(crate) fn change(
        &mut self,
        room: &mut Room,
        place: &Place<'_>,
        state: UnitState,
    ) -> Result<(), AllocError> {
        if self.state() == Some(state) {
            return Ok(());
        }
        let at = place.moment();
        let change = Change { at, state, more: 0 };
        keep_change(&mut self.changes, room, change)
    }

    /// Keeps that the unit holds no ONU-ID behind such a message.
    pub(crate) fn remove(
        &mut self,
        room: &mut Room,
        place: &Place<'_>,
        cause: Cause,
    ) -> Result<(), AllocError> {
        match self.state() {
            Some(state) => self.change(room, place, state.without_onu(cause)),
            None => Ok(()),
        }
    }

    /// Keeps its changes anew, in the columns of this room.
    pub(crate) fn keep_anew(&mut self, room: &mut Room) -> Result<(), AllocError> {
        let mut changes = Vec::new(room.alloc);
        for change in self.changes.as_slice() {
            keep_change(&mut changes, room, *change)?;
        }
        self.changes = changes;
        Ok(())
    }

    /// Tells whether the unit was removed before this frame, and not found again.
    pub(crate) fn is_past(&self, from: u64) -> bool {
        match self.changes.as_slice() {
            [only] => only.at.frame < from && matches!(only.state, UnitState::Removed(_)),
            _ => false,
        }
    }
}
