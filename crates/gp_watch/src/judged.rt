//! Whether a rule is judged of what is heard: whether that can break it or keep it, by what is known before it.
ghost use Rattle.std.specs.Prelude.{◌≡◌};
ghost use Rattle.gp_observer.specs.Judged as spec;
ghost use Rattle.gp_watch.specs.Heard.{heard_of};

use crate::heard::Heard;
use crate::rules::unit_told;
use crate::unit_rules::ASSIGN_ALLOC_ID;
use crate::watch::PortWatch;
use gp_observer::Rule;
use gp_ploam::{BROADCAST_ONU, Down, Serial, Up};
use gp_ranging::Grant;

/// Tells whether a message gives an ONU-ID or a further Alloc-ID.
fn gives_number(message: &Down) -> bool
    ensures { result ≡ spec.gives_number message.now }
{
    matches!(
        message,
        Down::AssignOnu { .. } | Down::AssignAlloc { keep: true, .. }
    )
}

impl PortWatch {
    /// Tells whether all that was said of a serial number is known: it is followed, and nothing was said before.
    fn knows_serial(&self, serial: &Serial) -> bool
        ensures { result ≡ spec.knows_serial self.now serial.now }
    {
        !self.is_midway() && self.can_follow(serial)
    }

    /// Tells whether it is known whether a serial number is disabled.
    fn knows_disabled(&self, serial: &Serial) -> bool
        ensures { result ≡ spec.knows_disabled self.now serial.now }
    {
        self.knows_serial(serial) || self.is_disabled(serial)
    }

    /// Tells whether it is known whether a serial number holds an ONU-ID.
    fn knows_held(&self, serial: &Serial) -> bool
        ensures { result ≡ spec.knows_held self.now serial.now }
    {
        self.knows_serial(serial) || self.holds_any(serial)
    }

    /// Tells whether it is known whose an Alloc-ID is, or that it is nobody's.
    fn knows_owner(&self, owner: Option<u8>) -> bool
        ensures { result ≡ spec.knows_owner self.now owner }
    {
        match owner {
            Some(owner) => self.is_judged(owner),
            None => !self.is_midway(),
        }
    }

    /// Tells whether a message came before of which it is known how many copies it had.
    fn judges_copies(&self) -> bool
        ensures { result ≡ spec.judges_copies self.now }
    {
        self.to_come() != 0 || (!self.is_cut() && self.last() != Down::NoMessage)
    }

    /// Tells whether an ONU-ID is given to a serial number of which it is known whether it is disabled.
    fn judges_barred(&self, message: &Down) -> bool
        ensures { result ≡ spec.judges_barred self.now message.now }
    {
        match *message {
            Down::AssignOnu { serial, .. } => self.knows_disabled(&serial),
            _ => false,
        }
    }

    /// Tells whether an ONU-ID is given to a serial number of which it is known whether it holds one.
    fn judges_renumbered(&self, message: &Down) -> bool
        ensures { result ≡ spec.judges_renumbered self.now message.now }
    {
        match *message {
            Down::AssignOnu { serial, .. } => self.knows_held(&serial),
            _ => false,
        }
    }

    /// Tells whether an Alloc-ID is given of which it is known whose it is, or that it is nobody's.
    fn judges_shared(&self, message: &Down) -> bool
        ensures { result ≡ spec.judges_shared self.now message.now }
    {
        match *message {
            Down::AssignAlloc {
                alloc,
                keep: true,
                ..
            } => self.knows_owner(self.owner(alloc)),
            _ => false,
        }
    }
    /// Tells whether an ONU-ID is given to a serial number of which it is known how often it asked.
    fn judges_unasked(&self, message: &Down) -> bool
        ensures { result ≡ spec.judges_unasked self.now message.now }
    {
        match *message {
            Down::AssignOnu { onu, serial } => {
                !self.is_midway() && self.is_judged(onu) && self.can_follow(&serial)
            }
            _ => false,
        }
    }

    /// Tells whether an ONU-ID is given of which it is known who holds it, or that nobody does.
    fn judges_taken(&self, message: &Down) -> bool
        ensures { result ≡ spec.judges_taken self.now message.now }
    {
        match *message {
            Down::AssignOnu { onu, .. } => self.is_judged(onu) || self.holder(onu).is_some(),
            _ => false,
        }
    }

    /// Tells whether a message is to an ONU-ID of which it is known who holds it, or that nobody does.
    fn judges_nobody(&self, message: &Down) -> bool
        ensures { result ≡ spec.judges_nobody self.now message.now }
    {
        match unit_told(message) {
            Some(onu) => self.is_judged(onu),
            None => false,
        }
    }

    /// Tells whether a unit gets an equalization delay.
    fn judges_unranged(&self, message: &Down) -> bool
        ensures { result ≡ spec.judges_unranged self.now message.now }
    {
        match *message {
            Down::RangingTime { onu, .. } => self.is_held(onu),
            _ => false,
        }
    }

    /// Tells whether a unit gets an equalization delay of whose answers all delays are known.
    fn judges_delay(&self, message: &Down) -> bool
        ensures { result ≡ spec.judges_delay self.now message.now }
    {
        match *message {
            Down::RangingTime { onu, .. } => self.is_held(onu) && self.knows_delays(onu),
            _ => false,
        }
    }

    /// Tells whether a unit is told of an Alloc-ID, or of POPUP.
    fn judges_early(&self, message: &Down) -> bool
        ensures { result ≡ spec.judges_early self.now message.now }
    {
        match *message {
            Down::AssignAlloc { onu, .. } => self.is_held(onu),
            Down::Popup { onu } => onu != BROADCAST_ONU && self.is_held(onu),
            _ => false,
        }
    }

    /// Tells whether an Alloc-ID is taken back from a unit.
    fn judges_not_held(&self, message: &Down) -> bool
        ensures { result ≡ spec.judges_not_held self.now message.now }
    {
        match *message {
            Down::AssignAlloc {
                onu,
                keep: false,
                ..
            } => self.is_held(onu),
            _ => false,
        }
    }

    /// Tells whether a rule is judged of a message down that is told.
    fn message_judges(&self, message: &Down, rule: Rule) -> bool
        ensures { result ≡ spec.message_judges self.now message.now rule }
    {
        match rule {
            Rule::Copies => self.judges_copies(),
            Rule::Range => gives_number(message),
            Rule::Barred => self.judges_barred(message),
            Rule::Renumbered => self.judges_renumbered(message),
            Rule::Unasked => self.judges_unasked(message),
            Rule::Taken => self.judges_taken(message),
            Rule::Nobody => self.judges_nobody(message),
            Rule::Unranged => self.judges_unranged(message),
            Rule::Delay => self.judges_delay(message),
            Rule::Early => self.judges_early(message),
            Rule::Shared => self.judges_shared(message),
            Rule::NotHeld => self.judges_not_held(message),
            _ => false,
        }
    }

    /// Tells whether a rule is judged of a copy of a message down: with the one that tells it, unless it is passed
    /// over.
    fn copy_judges(&self, message: &Down, rule: Rule) -> bool
        ensures { result ≡ spec.copy_judges self.now message.now rule }
    {
        self.is_new(message) && self.message_judges(message, rule)
    }

    /// Tells whether a rule is judged of a code down; None where its check octet is wrong.
    fn down_judges(&self, message: &Option<Down>, rule: Rule) -> bool
        ensures { result ≡ spec.down_judges self.now message.now rule }
    {
        match message {
            None | Some(Down::NoMessage) => rule == Rule::Garbled,
            Some(message) => rule == Rule::Garbled || self.copy_judges(message, rule),
        }
    }

    /// Tells whether a unit asks of which it is known whether it is disabled.
    fn judges_disabled(&self, message: &Up) -> bool
        ensures { result ≡ spec.judges_disabled self.now message.now }
    {
        match *message {
            Up::SerialNumber { onu, serial, .. } => {
                onu == BROADCAST_ONU && self.knows_disabled(&serial)
            }
            _ => false,
        }
    }

    /// Tells whether a unit asks of which it is known whether it holds an ONU-ID.
    fn judges_anew(&self, message: &Up) -> bool
        ensures { result ≡ spec.judges_anew self.now message.now }
    {
        match *message {
            Up::SerialNumber { onu, serial, .. } => {
                onu == BROADCAST_ONU && self.knows_held(&serial)
            }
            _ => false,
        }
    }

    /// Tells whether a message names an ONU-ID of which it is known who holds it, or that nobody does.
    fn judges_number(&self, message: &Up) -> bool
        ensures { result ≡ spec.judges_number self.now message.now }
    {
        let onu = message.octet1();
        onu != BROADCAST_ONU && self.is_judged(onu)
    }

    /// Tells whether a unit acknowledges Assign_Alloc-ID.
    fn judges_acknowledge(&self, message: &Up) -> bool
        ensures { result ≡ spec.judges_acknowledge self.now message.now }
    {
        match *message {
            Up::Acknowledge { onu, id, .. } => id == ASSIGN_ALLOC_ID && self.is_held(onu),
            _ => false,
        }
    }

    /// Tells whether the delay of a unit was measured that was told one.
    fn judges_drift(&self, message: &Up, delay: Option<u32>) -> bool
        ensures { result ≡ spec.judges_drift self.now message.now delay }
    {
        let onu = message.octet1();
        delay.is_some()
            && onu != BROADCAST_ONU
            && !self.breaks_number(message)
            && self.delay(onu).is_some()
    }

    /// Tells whether a rule is judged of a message up.
    fn answer_judges(&self, message: &Up, delay: Option<u32>, rule: Rule) -> bool
        ensures { result ≡ spec.answer_judges self.now message.now delay rule }
    {
        match rule {
            Rule::Garbled => true,
            Rule::Disabled => self.judges_disabled(message),
            Rule::Anew => self.judges_anew(message),
            Rule::Number => self.judges_number(message),
            Rule::Acknowledge => self.judges_acknowledge(message),
            Rule::Drift => self.judges_drift(message, delay),
            _ => false,
        }
    }

    /// Tells whether a rule is judged of a code up; None where its check octet is wrong.
    fn up_judges(&self, message: &Option<Up>, delay: Option<u32>, rule: Rule) -> bool
        ensures { result ≡ spec.up_judges self.now message.now delay rule }
    {
        match message {
            None => rule == Rule::Garbled,
            Some(message) => self.answer_judges(message, delay, rule),
        }
    }

    /// Tells whether a rule is judged of a grant.
    fn grant_judges(&self, grant: Grant, rule: Rule) -> bool
        ensures { result ≡ spec.grant_judges self.now grant rule }
    {
        match (grant, rule) {
            (Grant::Range(onu) | Grant::Poll(onu), Rule::Grant) => self.is_judged(onu),
            _ => false,
        }
    }

    /// Tells whether a rule is judged of what is heard, by what is known before it: whether that can break it or keep
    /// it. A rule that is broken was judged.
    pub fn judges(&self, heard: &Heard, rule: Rule) -> bool
        ensures { result ≡ spec.judges self.now (heard_of heard.now) rule }
    {
        match heard {
            Heard::Down(message) => self.down_judges(message, rule),
            Heard::Up { message, delay } => self.up_judges(message, *delay, rule),
            Heard::Grant(grant) => self.grant_judges(*grant, rule),
        }
    }
}
