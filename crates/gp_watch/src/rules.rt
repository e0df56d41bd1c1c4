//! Which rules a message down, or a grant, breaks.
ghost use Rattle.std.specs.Prelude.{◌≡◌, ◌==◌, not, true};
ghost use Rattle.gp_ploam.specs.declared.message.Down.TheVariants.{AssignAlloc};
ghost use Rattle.gp_observer.specs.Rules as rules;
ghost use Rattle.gp_observer.specs.Heard.{broken_of, message_rules, copy_breaks, down_breaks, breaks};
ghost use Rattle.gp_watch.specs.Heard.{heard_of, settings_of};

use crate::broken::BrokenRules;
use crate::heard::{Heard, Settings};
use crate::watch::PortWatch;
use gp_observer::Rule;
use gp_ploam::{BROADCAST_ONU, Down, LAST_ONU, Serial};
use gp_pools::FIRST_ALLOC_ID;
use gp_ranging::Grant;

/// Gives an ONU-ID, if it is one of a unit's.
fn unit_if(onu: u8) -> Option<u8>
    ensures { result ≡ rules.unit_if onu }
{
    if onu == BROADCAST_ONU {
        None
    } else {
        Some(onu)
    }
}

/// Gives the ONU-ID of the unit that a message is to, if it is to one.
pub(crate) fn unit_told(message: &Down) -> Option<u8>
    ensures { result ≡ rules.unit_told message.now }
{
    match *message {
        Down::RangingTime { onu, .. } | Down::AssignAlloc { onu, .. } => Some(onu),
        Down::Deactivate { onu } | Down::Popup { onu } => unit_if(onu),
        _ => None,
    }
}

/// Tells whether Assign_ONU-ID gives 254 or 255, or Assign_Alloc-ID an Alloc-ID below 256.
fn breaks_range(message: &Down) -> bool
    ensures { result ≡ rules.breaks_range message.now }
{
    match *message {
        Down::AssignOnu { onu, .. } => onu > LAST_ONU,
        Down::AssignAlloc {
            alloc,
            keep: true,
            ..
        } => alloc < FIRST_ALLOC_ID,
        _ => false,
    }
}

impl PortWatch {
    /// Tells whether it is known who holds an ONU-ID, or that nobody does.
    pub(crate) fn is_judged(&self, onu: u8) -> bool
        ensures { result ≡ rules.is_judged self.now onu }
    {
        !self.is_unknown(onu)
    }

    /// Tells whether nobody holds an ONU-ID.
    fn is_nobodys(&self, onu: u8) -> bool
        ensures { result ≡ rules.is_nobodys self.now onu }
    {
        self.is_judged(onu) && self.holder(onu).is_none()
    }

    /// Tells whether a unit holds an ONU-ID.
    pub(crate) fn is_held(&self, onu: u8) -> bool
        ensures { result ≡ rules.is_held self.now onu }
    {
        self.is_judged(onu) && self.holder(onu).is_some()
    }

    /// Tells whether a unit holds an ONU-ID, and was told no delay.
    fn is_unranged(&self, onu: u8) -> bool
        ensures { result ≡ rules.is_unranged self.now onu }
    {
        self.is_held(onu) && self.delay(onu).is_none()
    }

    /// Tells whether another unit than this one holds an ONU-ID.
    pub fn is_anothers(&self, onu: u8, serial: &Serial) -> bool
        ensures { result ≡ rules.is_anothers self.now onu serial.now }
    {
        self.holder(onu).is_some() && !self.is_of(serial, onu)
    }

    /// Tells whether a serial number holds another ONU-ID.
    pub fn holds_other(&self, serial: &Serial, onu: u8) -> bool
        ensures { result ≡ rules.holds_one self.now serial.now (λ other. not (other == onu)) }
    {
        match self.onu_of(serial) {
            Some(other) => other != onu,
            None => false,
        }
    }

    /// Tells whether a serial number holds an ONU-ID.
    pub fn holds_any(&self, serial: &Serial) -> bool
        ensures { result ≡ rules.holds_one self.now serial.now (λ _. true) }
    {
        self.onu_of(serial).is_some()
    }

    /// Tells whether another message begins, and the copies of the one before aren't three, six, and so on.
    fn breaks_copies(&self, message: &Down) -> bool
        ensures { result ≡ rules.breaks_copies self.now message.now }
    {
        self.to_come() != 0 && self.last() != *message
    }

    /// Tells whether a disabled serial number gets an ONU-ID.
    fn breaks_barred(&self, message: &Down) -> bool
        ensures { result ≡ rules.breaks_barred self.now message.now }
    {
        match *message {
            Down::AssignOnu { serial, .. } => self.is_disabled(&serial),
            _ => false,
        }
    }

    /// Tells whether a serial number gets an ONU-ID that has no ask left; not in the middle, where it may have asked
    /// before.
    fn breaks_unasked(&self, message: &Down) -> bool
        ensures { result ≡ rules.breaks_unasked self.now message.now }
    {
        match *message {
            Down::AssignOnu { onu, serial } => {
                !self.is_midway() && self.is_judged(onu) && self.asks_left(&serial) == Some(0)
            }
            _ => false,
        }
    }

    /// Tells whether an ONU-ID is given that another unit holds.
    fn breaks_taken(&self, message: &Down) -> bool
        ensures { result ≡ rules.breaks_taken self.now message.now }
    {
        match *message {
            Down::AssignOnu { onu, serial } => self.is_anothers(onu, &serial),
            _ => false,
        }
    }

    /// Tells whether a unit gets an ONU-ID that holds another.
    fn breaks_renumbered(&self, message: &Down) -> bool
        ensures { result ≡ rules.breaks_renumbered self.now message.now }
    {
        match *message {
            Down::AssignOnu { onu, serial } => self.holds_other(&serial, onu),
            _ => false,
        }
    }

    /// Tells whether a message is to an ONU-ID that nobody holds.
    fn breaks_nobody(&self, message: &Down) -> bool
        ensures { result ≡ rules.breaks_nobody self.now message.now }
    {
        match unit_told(message) {
            Some(onu) => self.is_nobodys(onu),
            None => false,
        }
    }

    /// Tells whether a unit gets an equalization delay that didn't give its serial number with its ONU-ID.
    fn breaks_unranged(&self, message: &Down) -> bool
        ensures { result ≡ rules.breaks_unranged self.now message.now }
    {
        match *message {
            Down::RangingTime { onu, .. } => self.is_held(onu) && self.is_unanswered(onu),
            _ => false,
        }
    }

    /// Tells whether an equalization delay isn't what the delay of an answer leaves.
    fn breaks_delay(&self, settings: &Settings, message: &Down) -> bool
        ensures { result ≡ rules.breaks_delay (settings_of settings.now) self.now message.now }
    {
        match *message {
            Down::RangingTime { onu, eqd } => {
                self.is_held(onu) && self.answers_leave_none(settings, onu, eqd)
            }
            _ => false,
        }
    }

    /// Tells whether a unit is told of an Alloc-ID, or of POPUP, that doesn't operate yet.
    fn breaks_early(&self, message: &Down) -> bool
        ensures { result ≡ rules.breaks_early self.now message.now }
    {
        match *message {
            Down::AssignAlloc { onu, .. } => self.is_unranged(onu),
            Down::Popup { onu } => onu != BROADCAST_ONU && self.is_unranged(onu),
            _ => false,
        }
    }

    /// Tells whether an Alloc-ID is given that another unit has.
    fn breaks_shared(&self, message: &Down) -> bool
        ensures { result ≡ rules.breaks_shared self.now message.now }
    {
        match *message {
            Down::AssignAlloc {
                onu,
                alloc,
                keep: true,
            } => self.is_shared(onu, alloc),
            _ => false,
        }
    }

    /// Tells whether another unit than this one has an Alloc-ID.
    fn is_shared(&self, onu: u8, alloc: u16) -> bool
        ensures { result ≡ rules.breaks_shared self.now (AssignAlloc onu alloc true) }
    {
        match self.owner(alloc) {
            Some(other) => self.is_judged(other) && other != onu,
            None => false,
        }
    }

    /// Tells whether an Alloc-ID is taken back that the unit doesn't have.
    fn breaks_not_held(&self, message: &Down) -> bool
        ensures { result ≡ rules.breaks_not_held self.now message.now }
    {
        match *message {
            Down::AssignAlloc {
                onu,
                alloc,
                keep: false,
            } => self.is_held(onu) && self.owner(alloc) != Some(onu),
            _ => false,
        }
    }

    /// Tells whether a window is opened for an ONU-ID that nobody holds, or a poll window for a unit that doesn't
    /// operate yet.
    fn breaks_grant(&self, grant: Grant) -> bool
        ensures { result ≡ rules.breaks_grant self.now grant }
    {
        match grant {
            Grant::Search => false,
            Grant::Range(onu) => self.is_nobodys(onu),
            Grant::Poll(onu) => self.is_nobodys(onu) || self.is_unranged(onu),
        }
    }

    /// Gives the rules that a message down breaks.
    fn broken_by_message(&self, settings: &Settings, message: &Down) -> BrokenRules
        ensures { result ≡ broken_of (message_rules (settings_of settings.now) self.now message.now) }
    {
        BrokenRules::of(&[
            (self.breaks_copies(message), Rule::Copies),
            (breaks_range(message), Rule::Range),
            (self.breaks_barred(message), Rule::Barred),
            (self.breaks_unasked(message), Rule::Unasked),
            (self.breaks_taken(message), Rule::Taken),
            (self.breaks_renumbered(message), Rule::Renumbered),
            (self.breaks_nobody(message), Rule::Nobody),
            (self.breaks_unranged(message), Rule::Unranged),
            (self.breaks_delay(settings, message), Rule::Delay),
            (self.breaks_early(message), Rule::Early),
            (self.breaks_shared(message), Rule::Shared),
            (self.breaks_not_held(message), Rule::NotHeld),
        ])
    }

    /// Gives the rules that a copy of a message down breaks: those of the message, if it is told with this copy.
    fn broken_by_copy(&self, settings: &Settings, message: &Down) -> BrokenRules
        ensures { result ≡ copy_breaks (settings_of settings.now) self.now message.now }
    {
        if self.is_new(message) {
            self.broken_by_message(settings, message)
        } else {
            BrokenRules::none()
        }
    }

    /// Gives the rules that a code down breaks; None where its check octet is wrong.
    fn broken_by_down(&self, settings: &Settings, message: &Option<Down>) -> BrokenRules
        ensures { result ≡ down_breaks (settings_of settings.now) self.now message.now }
    {
        match message {
            None => BrokenRules::of(&[(true, Rule::Garbled)]),
            Some(Down::NoMessage) => BrokenRules::none(),
            Some(message) => self.broken_by_copy(settings, message),
        }
    }

    /// Gives the rules that are broken by what is heard, in their order, by what is known before it.
    pub fn broken(&self, settings: &Settings, heard: &Heard) -> BrokenRules
        ensures { result ≡ breaks (settings_of settings.now) self.now (heard_of heard.now) }
    {
        match heard {
            Heard::Down(message) => self.broken_by_down(settings, message),
            Heard::Up { message, delay } => self.broken_by_up(settings, message, *delay),
            Heard::Grant(grant) => BrokenRules::of(&[(self.breaks_grant(*grant), Rule::Grant)]),
        }
    }
}
