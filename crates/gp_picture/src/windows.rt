//! The windows of a port that wait for an answer: each closes with one, or after its three frames without.

use crate::moment::Moment;
use gp_ploam::{BROADCAST_ONU, Up};
use gp_ranging::Grant;

/// For how many frames a window is open.
const WINDOW_FRAMES: u64 = 3;

/// How many windows are followed at once: a line terminal has one open at a time, and some have a few.
pub(crate) const MOST_OPEN: usize = 8;

/// A window that waits for an answer.
#[derive(Clone, Copy)]
pub(crate) struct Window {
    pub(crate) grant: Grant,
    pub(crate) at: Moment,
}

/// The windows of a port that wait for an answer.
#[derive(Drop)]
pub(crate) struct Windows {
    open: [Option<Window>; MOST_OPEN],
}

impl Window {
    /// The frame at which it closes.
    pub(crate) fn end(&self) -> u64 {
        self.at.frame.saturating_add(WINDOW_FRAMES)
    }

    /// Tells whether it closes at this frame, or before it.
    fn is_past(&self, frame: u64) -> bool {
        self.end() <= frame
    }

    /// Tells whether a message is an answer to it.
    fn is_answered_by(&self, message: &Up) -> bool {
        match (self.grant, message) {
            (Grant::Search, Up::SerialNumber { onu, .. }) => *onu == BROADCAST_ONU,
            (Grant::Search, _) => false,
            (Grant::Range(asked) | Grant::Poll(asked), _) => message.octet1() == asked,
        }
    }
}

impl Windows {
    /// None is open.
    pub(crate) fn new() -> Windows {
        Windows {
            open: [None; MOST_OPEN],
        }
    }

    /// Opens one. Where as many are open as are followed, it is not.
    pub(crate) fn open(&mut self, window: Window) {
        for place in self.open.iter_mut() {
            if place.is_none() {
                *place = Some(window);
                return;
            }
        }
    }

    /// Closes one that this message answers, if there is one.
    pub(crate) fn answer(&mut self, message: &Up) {
        for place in self.open.iter_mut() {
            if place.is_some_and(|window| window.is_answered_by(message)) {
                *place = None;
                return;
            }
        }
    }

    /// Gives the line that granted the first of those that close at this frame, or before it, if there is one.
    fn first_past(&self, frame: u64) -> Option<u64> {
        let mut first: Option<u64> = None;
        for place in self.open.iter() {
            if let Some(window) = place {
                let line = window.at.line;
                if window.is_past(frame) && line < first.unwrap_or(u64::MAX) {
                    first = Some(line);
                }
            }
        }
        first
    }

    /// Takes the first of those that close at this frame, or before it, if there is one.
    pub(crate) fn take_past(&mut self, frame: u64) -> Option<Window> {
        let line = self.first_past(frame)?;
        for place in self.open.iter_mut() {
            if place.is_some_and(|window| window.at.line == line) {
                return place.take();
            }
        }
        None
    }
}
