//! Which rules a message of a unit breaks.
ghost use Rattle.std.specs.Prelude.{◌≡◌};
ghost use Rattle.std.specs.FinMap as map;
ghost use Rattle.gp_observer.specs.Observer.{some_passes};
ghost use Rattle.gp_observer.specs.UnitRules as rules;
ghost use Rattle.gp_observer.specs.Heard.{broken_of, answer_rules, up_breaks};
ghost use Rattle.gp_watch.specs.Heard.{settings_of};

use crate::broken::BrokenRules;
use crate::heard::Settings;
use crate::watch::PortWatch;
use gp_observer::Rule;
use gp_ploam::{BROADCAST_ONU, Up};

/// The identifier of Assign_Alloc-ID.
pub(crate) const ASSIGN_ALLOC_ID: u8 = 10;

/// Tells whether a delay with its equalization delay isn't near the equalized delay.
fn drifts(settings: &Settings, delay: u32, eqd: u32) -> bool
    ensures { result ≡ rules.drifts (settings_of settings.now) delay eqd }
{
    let whole = u64::from(delay) + u64::from(eqd);
    whole.abs_diff(u64::from(settings.teqd)) > u64::from(settings.drift)
}

impl PortWatch {
    /// Tells whether a disabled unit asks.
    fn breaks_disabled(&self, message: &Up) -> bool
        ensures { result ≡ rules.breaks_disabled self.now message.now }
    {
        match *message {
            Up::SerialNumber { onu, serial, .. } => {
                onu == BROADCAST_ONU && self.is_disabled(&serial)
            }
            _ => false,
        }
    }

    /// Tells whether a unit asks that holds an ONU-ID.
    fn breaks_anew(&self, message: &Up) -> bool
        ensures { result ≡ rules.breaks_anew self.now message.now }
    {
        match *message {
            Up::SerialNumber { onu, serial, .. } => onu == BROADCAST_ONU && self.holds_any(&serial),
            _ => false,
        }
    }

    /// Tells whether a serial number is given with an ONU-ID that another unit holds.
    fn names_anothers(&self, message: &Up) -> bool
        ensures { result ≡ rules.names_anothers self.now message.now }
    {
        match *message {
            Up::SerialNumber { onu, serial, .. } => self.is_anothers(onu, &serial),
            _ => false,
        }
    }

    /// Tells whether a unit speaks with an ONU-ID that nobody holds, or gives its serial number with another's.
    pub(crate) fn breaks_number(&self, message: &Up) -> bool
        ensures { result ≡ rules.breaks_number self.now message.now }
    {
        let onu = message.octet1();
        onu != BROADCAST_ONU
            && self.is_judged(onu)
            && (self.holder(onu).is_none() || self.names_anothers(message))
    }

    /// Tells whether a unit acknowledges an Alloc-ID of which it wasn't told.
    fn breaks_acknowledge(&self, message: &Up) -> bool
        ensures { result ≡ rules.breaks_acknowledge self.now message.now }
    {
        match *message {
            Up::Acknowledge { onu, id, .. } => {
                id == ASSIGN_ALLOC_ID && self.is_held(onu) && !self.was_told(onu)
            }
            _ => false,
        }
    }

    /// Tells whether an ONU-ID was ranged, and this delay isn't near the one that it was ranged with.
    fn has_drifted(&self, settings: &Settings, onu: u8, delay: u32) -> bool
        ensures { result ≡ some_passes (rules.drifts (settings_of settings.now) delay)
            (map.get self.now.seen.delay onu) }
    {
        match self.delay(onu) {
            Some(eqd) => drifts(settings, delay, eqd),
            None => false,
        }
    }

    /// Tells whether a unit's delay, where it was measured, isn't near the one that it was ranged with.
    fn breaks_drift(&self, settings: &Settings, message: &Up, delay: Option<u32>) -> bool
        ensures { result ≡ rules.breaks_drift (settings_of settings.now) self.now message.now delay }
    {
        let onu = message.octet1();
        match delay {
            Some(delay) => {
                onu != BROADCAST_ONU
                    && !self.breaks_number(message)
                    && self.has_drifted(settings, onu, delay)
            }
            None => false,
        }
    }

    /// Gives the rules that a message of a unit breaks.
    fn broken_by_answer(&self, settings: &Settings, message: &Up, delay: Option<u32>) -> BrokenRules
        ensures { result ≡ broken_of (answer_rules (settings_of settings.now) self.now message.now delay) }
    {
        BrokenRules::of(&[
            (self.breaks_disabled(message), Rule::Disabled),
            (self.breaks_anew(message), Rule::Anew),
            (self.breaks_number(message), Rule::Number),
            (self.breaks_acknowledge(message), Rule::Acknowledge),
            (self.breaks_drift(settings, message, delay), Rule::Drift),
        ])
    }

    /// Gives the rules that a code up breaks; None where its check octet is wrong.
    pub(crate) fn broken_by_up(
        &self,
        settings: &Settings,
        message: &Option<Up>,
        delay: Option<u32>,
    ) -> BrokenRules
        ensures { result ≡ up_breaks (settings_of settings.now) self.now message.now delay }
    {
        match message {
            None => BrokenRules::of(&[(true, Rule::Garbled)]),
            Some(message) => self.broken_by_answer(settings, message, delay),
        }
    }
}
