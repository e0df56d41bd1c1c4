//! Where a window stands, as plain data, as an image of a port keeps it, and the window opened of it again.
ghost use Rattle.std.specs.Prelude.{◌≡◌, ◌≤◌, IsTrue, ◌↔◌};
ghost use Rattle.gp_ranging.specs.Window.{window_frames};

use super::grant::Grant;
use super::window::Window;
use std::marker::Model;

/// Where a window stands, as plain data: an image of a port keeps it, and a window is opened from it again.
#[derive(Drop)]
pub struct WindowImage {
    grant: Grant,
    left: u8,
    seen: bool,
}

impl Model for WindowImage {
    ghost use Rattle.std.specs.Prelude.{◌≤◌};
    ghost use Rattle.gp_ranging.specs.Window.{WindowState, window_frames};

    ghost Value = { WindowState };

    ghost view = { λ w. record { grant = w.grant; left = w.left; seen = w.seen } };

    ghost invariant = { λ w. (1 ≤ w.left) × (w.left ≤ window_frames) };
}

impl WindowImage {
    /// Tells who was asked.
    pub fn grant(&self) -> Grant
        ensures { result ≡ self.now.grant }
    {
        self.grant
    }

    /// Tells how many frames the window was still open, 1 to 3.
    pub fn left(&self) -> u8
        ensures left { result ≡ self.now.left }
        ensures open { 1 ≤ result }
        ensures at_most { result ≤ window_frames }
    {
        self.left
    }

    /// Tells whether anything was seen in the window that did not close it.
    pub fn seen(&self) -> bool
        ensures { result ≡ self.now.seen }
    {
        self.seen
    }

    /// Makes a second image of the same window.
    pub fn copy(&self) -> WindowImage
        ensures { result ≡ self.now }
    {
        WindowImage {
            grant: self.grant,
            left: self.left,
            seen: self.seen,
        }
    }

    /// Opens a window that stands where the image has it.
    pub fn reopen(&self) -> Window
        ensures { result ≡ self.now }
    {
        Window::resume(self.grant, self.left, self.seen)
    }

    /// Tells whether both images are of windows that stand at the same.
    pub fn is_same_as(&self, other: &WindowImage) -> bool
        ensures { IsTrue result ↔ (self.now ≡ other.now) }
    {
        self.grant == other.grant && self.left == other.left && self.seen == other.seen
    }
}

impl Window {
    /// Makes an image of the window as it stands.
    pub fn image(&self) -> WindowImage
        ensures { result ≡ self.now }
    {
        WindowImage {
            grant: self.grant(),
            left: self.left(),
            seen: self.seen(),
        }
    }
}
