//! A window: the frames in which answers to a grant may arrive, three at most. It is no `Drop`: it ends with its last
//! frame, or is closed.
ghost use Rattle.std.specs.Prelude.{◌≡◌, ◌≤◌, MatchOption};
ghost use Rattle.gp_ranging.specs.Window.{fresh_window, marked_window, window_after_frame, window_frames};

use super::grant::Grant;
use gp_linear::NeverDropped;
use std::marker::Model;

/// How many frames a window stays open (this profile's own rule).
pub const WINDOW_FRAMES: u8 = 3;

/// A window: `WINDOW_FRAMES` frames in which answers to a grant may arrive. It is no `Drop`, so that each
/// window is ended by its last frame or closed.
pub struct Window {
    grant: Grant,
    left: u8,
    seen: bool,
}

impl NeverDropped for Window {}

impl Model for Window {
    ghost use Rattle.std.specs.Prelude.{◌≤◌};
    ghost use Rattle.gp_ranging.specs.Window.{WindowState, window_frames};

    ghost Value = { WindowState };

    ghost view = { λ w. record { grant = w.grant; left = w.left; seen = w.seen } };

    ghost invariant = { λ w. (1 ≤ w.left) × (w.left ≤ window_frames) };
}

/// What is left of a window after a frame. It is no `Drop`, as a window is none.
pub enum Ticked {
    /// It is still open.
    Still(Window),
    /// It ended with this frame: its grant, and whether anything was seen in it.
    Ended(Grant, bool),
}

impl NeverDropped for Ticked {}

impl Window {
    /// Opens a window for the answers to `grant`.
    pub fn begin(grant: Grant) -> Window
        ensures { result ≡ fresh_window grant }
    {
        Window {
            grant,
            left: WINDOW_FRAMES,
            seen: false,
        }
    }

    /// Opens a window that was open before, for so many frames more, 1 to 3.
    pub(super) fn resume(grant: Grant, left: u8, seen: bool) -> Window
        requires open { 1 ≤ left }
        requires at_most { left ≤ window_frames }
        ensures { result ≡ record { grant = grant; left = left; seen = seen } }
    {
        Window { grant, left, seen }
    }

    /// Tells who was asked.
    pub fn grant(&self) -> Grant
        ensures { result ≡ self.now.grant }
    {
        self.grant
    }

    /// Tells how many frames the window is still open, 1 to 3.
    pub fn left(&self) -> u8
        ensures left { result ≡ self.now.left }
        ensures open { 1 ≤ result }
        ensures at_most { result ≤ window_frames }
    {
        self.left
    }

    /// Tells whether anything was seen in the window that did not close it.
    pub fn seen(&self) -> bool
        ensures { result ≡ self.now.seen }
    {
        self.seen
    }

    /// Notes that something was seen.
    pub fn mark_seen(&mut self)
        ensures { self.new ≡ marked_window self.old }
    {
        self.seen = true;
    }

    /// Counts a frame that goes by. The window ends with its third.
    pub fn tick(self) -> Ticked
        ensures { MatchOption (window_after_frame self) (result ≡ Ticked.Ended self.grant self.seen)
            (λ next. result ≡ Ticked.Still next) }
    {
        let Window { grant, left, seen } = self;
        if left > 1 {
            Ticked::Still(Window {
                grant,
                left: left - 1,
                seen,
            })
        } else {
            Ticked::Ended(grant, seen)
        }
    }

    /// Closes the window before its end, and gives its grant and whether anything was seen in it.
    pub fn close(self) -> (Grant, bool)
        ensures grant { result.0 ≡ self.grant }
        ensures seen { result.1 ≡ self.seen }
    {
        let Window {
            grant,
            left: _,
            seen,
        } = self;
        (grant, seen)
    }
}
