//! One message with the copies of it that are still to be sent, of three in all (G.984.3, clause 9). It is no `Drop`:
//! it ends with its last copy, or is closed.
ghost use Rattle.std.specs.Prelude.{◌≡◌, ◌-◌, ◌≤◌};
ghost use Rattle.gp_volley.specs.Copies.{copies_each};
ghost use Rattle.gp_volley.specs.Volley.{volley_of, volley_after_copy};

use gp_linear::NeverDropped;
use gp_ploam::Down;
use std::marker::Model;

/// How many times a message is sent (G.984.3, clause 9).
pub const COPIES: u8 = 3;

/// A message with the copies of it that are still to be sent. It is no `Drop`, so that a volley ends with its last
/// copy, or is closed.
pub struct Volley {
    message: Down,
    left: u8,
}

impl NeverDropped for Volley {}

impl Model for Volley {
    ghost use Rattle.std.specs.Prelude.{◌≤◌};
    ghost use Rattle.gp_volley.specs.Copies.{copies_each};
    ghost use Rattle.gp_volley.specs.Volley.{VolleyState};

    ghost Value = { VolleyState };

    ghost view = { λ v. record { message = v.message; left = v.left } };

    ghost invariant = { λ v. (1 ≤ v.left) × (v.left ≤ copies_each) };
}

impl Volley {
    /// Begins the volley of a message, with all its copies.
    pub fn begin(message: Down) -> Volley
        ensures { result ≡ volley_of message }
    {
        Volley {
            message,
            left: COPIES,
        }
    }

    /// Makes a volley of a message of which so many copies are left, 1 to 3.
    pub(super) fn resume(message: Down, left: u8) -> Volley
        requires some { 1 ≤ left }
        requires at_most { left ≤ copies_each }
        ensures { result ≡ record { message = message; left = left } }
    {
        Volley { message, left }
    }

    /// Gives the message of which copies are left.
    pub fn message(&self) -> Down
        ensures { result ≡ self.now.message }
    {
        self.message
    }

    /// Tells how many copies are still to be sent, 1 to 3.
    pub fn left(&self) -> u8
        ensures left { result ≡ self.now.left }
        ensures some { 1 ≤ result }
        ensures at_most { result ≤ copies_each }
    {
        self.left
    }

    /// Sends a copy, and gives the message, and what is left of the volley, if anything is.
    pub fn send(self) -> (Down, Option<Volley>)
        ensures copy { result.0 ≡ self.message }
        ensures rest { result.1 ≡ volley_after_copy self }
    {
        let Volley { message, left } = self;
        if left > 1 {
            let rest = Volley {
                message,
                left: left - 1,
            };
            (message, Some(rest))
        } else {
            (message, None)
        }
    }

    /// Ends the volley before its last copy, and gives the message and how many copies were left.
    pub fn close(self) -> (Down, u8)
        ensures message { result.0 ≡ self.message }
        ensures left { result.1 ≡ self.left }
    {
        let Volley { message, left } = self;
        (message, left)
    }
}
