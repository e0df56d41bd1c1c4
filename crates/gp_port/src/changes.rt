//! What a step changes of the window, the owed messages and the common state: a method for each, which changes that as
//! `gp_machine` defines it, and nothing else.
ghost use Rattle.std.specs.Prelude.{◌≡◌, ℕ, ◌+◌, ◌<◌, ◌≤◌, IfSome, None, Some, length};
ghost use Rattle.std.specs.FinMap as map;
ghost use Rattle.gp_ploam.specs.declared.message.Serial.{Serial};
ghost use Rattle.gp_volley.specs.Copies.{copies_each, max_copies};
ghost use Rattle.gp_ploam.specs.Down.{IsProperDown};
ghost use Rattle.gp_unit.specs.declared.row.Row.{Row};
ghost use Rattle.gp_machine.specs.State.{HasRow};
ghost use Rattle.gp_machine.specs.Changes as spec;

use super::port_machine::PortMachine;
use gp_common::Common;
use gp_machine::Row;
use gp_ploam::{Down, Serial};
use gp_ranging::{Grant, Ticked, Window};
use gp_unit::Record;
use std::mem;

impl PortMachine {
    /// Owes a message: its three copies come after all that is owed.
    pub(super) fn owe(&mut self, message: Down)
        requires room { length self.old.owed + copies_each ≤ max_copies }
        requires proper { IsProperDown message }
        ensures { self.new ≡ spec.state_owing self.old message }
    {
        self.owed.owe(message);
    }

    /// Marks the open window: it has seen something.
    pub(super) fn mark_seen(&mut self)
        ensures { self.new ≡ spec.state_seen self.old }
    {
        if let Some(window) = &mut self.window {
            window.mark_seen();
        }
    }

    /// Takes a frame off the open window, of which this is not the last.
    pub(super) fn count_down(&mut self)
        requires { IfSome self.old.window (λ window. 2 ≤ window.left) }
        ensures { self.new ≡ spec.state_counted_down self.old }
    {
        if let Some(window) = mem::replace(&mut self.window, None) {
            match window.tick() {
                Ticked::Still(still) => self.put_window(still),
                Ticked::Ended(_, _) => {}
            }
        }
    }

    /// Opens this window.
    fn put_window(&mut self, window: Window)
        requires { self.old.window ≡ None }
        ensures { self.new ≡ record self.old { window = Some window } }
    {
        if let Some(closed) = mem::replace(&mut self.window, Some(window)) {
            closed.close();
        }
    }

    /// Closes the open window.
    pub(super) fn close_window(&mut self)
        ensures { self.new ≡ spec.state_closed self.old }
    {
        if let Some(closed) = mem::replace(&mut self.window, None) {
            closed.close();
        }
    }

    /// Opens the window of this grant; a unit that is asked by a poll is now the last polled one.
    pub(super) fn open_window(&mut self, grant: Grant)
        ensures { self.new ≡ spec.state_open self.old grant }
    {
        if let Grant::Poll(onu) = grant {
            self.polled = Some(onu);
        }
        let fresh = Window::begin(grant);
        if let Some(closed) = mem::replace(&mut self.window, Some(fresh)) {
            closed.close();
        }
    }

    /// Enters this common state.
    pub(super) fn enter(&mut self, common: Common)
        ensures { self.new ≡ record self.old { common = common } }
    {
        self.common = common;
    }

    /// Notes whether a search is wanted.
    pub(super) fn want(&mut self, wanted: bool)
        ensures { self.new ≡ record self.old { wanted = wanted } }
    {
        self.wanted = wanted;
    }

    /// Closes a window that asks the unit with this ONU-ID.
    pub(super) fn close_if_asked(&mut self, onu: u8)
        ensures { self.new ≡ record self.old { window = spec.window_without self.old.window onu } }
    {
        let asked = match &self.window {
            Some(window) => asks(window.grant(), onu),
            None => false,
        };
        if asked {
            self.close_window();
        }
    }

    /// Closes an open poll window.
    pub(super) fn close_if_polling(&mut self)
        ensures { self.new ≡ record self.old { window = spec.window_unpolled self.old.window } }
    {
        let polling = match &self.window {
            Some(window) => matches!(window.grant(), Grant::Poll(_)),
            None => false,
        };
        if polling {
            self.close_window();
        }
    }
}

/// Tells whether a grant asks the unit with this ONU-ID.
fn asks(grant: Grant, onu: u8) -> bool
    ensures { result ≡ spec.asks_unit grant onu }
{
    match grant {
        Grant::Search => false,
        Grant::Range(asked) | Grant::Poll(asked) => asked == onu,
    }
}
