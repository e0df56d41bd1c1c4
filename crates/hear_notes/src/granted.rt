//! A window that was opened, and whether it asks for a message.
ghost use Rattle.std.specs.Prelude.{◌≡◌};
ghost use Rattle.hear_rules.specs.Units as units;
ghost use Rattle.hear_notes.specs.Grants.{granted_of, had_by, marked, waits_by};

use gp_ploam::{BROADCAST_ONU, Up};
use gp_ranging::Grant;

/// A window that was opened.
#[derive(Clone, Copy, Debug, PartialEq, Eq)]
pub(crate) struct Granted {
    pub(crate) grant: Grant,
    /// In which frame.
    pub(crate) at: u64,
    /// How many were opened before it.
    pub(crate) number: u64,
    /// Whether it was answered; of a search it isn't kept here.
    pub(crate) answered: bool,
}

impl Default for Granted {
    fn default() -> Granted {
        Granted {
            grant: Grant::Search,
            at: 0,
            number: 0,
            answered: false,
        }
    }
}

/// Tells whether a window asks for this message.
fn asks_for(grant: Grant, message: &Up) -> bool
    ensures { result ≡ units.asks_for grant message.now }
{
    match (grant, message) {
        (Grant::Search, Up::SerialNumber { onu, .. }) => *onu == BROADCAST_ONU,
        (Grant::Range(given), Up::SerialNumber { onu, .. }) => *onu == given,
        (Grant::Poll(_), Up::SerialNumber { .. }) => false,
        (Grant::Poll(given), _) => message.octet1() == given,
        _ => false,
    }
}

impl Granted {
    /// Tells whether it was opened in the last frames, and asks for this message.
    pub(crate) fn may_answer(&self, grace: u32, now: u64, message: &Up) -> bool
        ensures { result ≡ units.may_answer grace now (granted_of self.now) message.now }
    {
        now <= self.at.saturating_add(u64::from(grace)) && asks_for(self.grant, message)
    }

    /// Tells whether it has had this answer, of whose serial number this is the last search that it answered: who
    /// answers one search answered those before it.
    fn has_had(&self, searched: Option<u64>, message: &Up) -> bool
        ensures { result ≡ had_by searched (granted_of self.now) message.now }
    {
        match (message, searched) {
            (Up::SerialNumber { onu, .. }, None) if *onu == BROADCAST_ONU => false,
            (Up::SerialNumber { onu, .. }, Some(last)) if *onu == BROADCAST_ONU => {
                self.number <= last
            }
            _ => self.answered,
        }
    }

    /// Tells whether it may be answered by this message, and has not had this answer.
    pub(crate) fn waits(&self, grace: u32, now: u64, searched: Option<u64>, message: &Up) -> bool
        ensures { result ≡ waits_by grace now searched (granted_of self.now) message.now }
    {
        self.may_answer(grace, now, message) && !self.has_had(searched, message)
    }

    /// The window, answered if it is the one with this number.
    pub(crate) fn marked(self, number: u64) -> Granted
        ensures { result ≡ marked number self }
    {
        if self.number == number {
            Granted {
                answered: true,
                ..self
            }
        } else {
            self
        }
    }
}
