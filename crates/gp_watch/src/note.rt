//! What is known after a message, a copy or a code: `hear`, which notes nothing where it fails.
ghost use Rattle.std.specs.Prelude.{◌≡◌, ◌≤◌, ◌==◌, if◌then◌else◌, IsTrue, IfErr, OnOk, OnErr, None, Some, is_some};
ghost use Rattle.std.specs.FinMap as map;
ghost use Rattle.gp_ploam.specs.declared.message.Down.TheVariants.{AssignOnu, RangingTime, Deactivate, DisableSerial, EnableSerial, EnableAll, AssignAlloc, Popup};
ghost use Rattle.gp_ploam.specs.Down.{IsFittingDown};
ghost use Rattle.gp_ploam.specs.OnuIds.{last_onu, broadcast_onu};
ghost use Rattle.gp_pools.specs.Limits.{last_alloc_id};
ghost use Rattle.gp_observer.specs.Watch.{noted, is_new, passes_over, tells, copy_heard, after_down, after_up, serial_heard};
ghost use Rattle.gp_observer.specs.Heard.{watch_after};
ghost use Rattle.gp_watch.specs.Changes.{watch_assigned};
ghost use Rattle.gp_watch.specs.declared.heard.Heard.TheVariants as heards;
ghost use Rattle.gp_watch.specs.Heard.{heard_of, followed_by, followed_by_copy, followed_now, followed_up, FailsBy, FailsOn, IsFitting, IsNew};

use crate::fault::WatchFault;
use crate::heard::Heard;
use crate::watch::PortWatch;
use gp_ploam::{BROADCAST_ONU, Down, LAST_ONU, Serial, Up};
use std::alloc::AllocError;

impl PortWatch {
    /// Notes that an ONU-ID that a unit may have is assigned to a serial number, which is followed or not.
    fn give_to(&mut self, onu: u8, serial: &Serial, followed: bool)
        requires low { onu ≤ last_onu }
        requires followed { IsTrue followed → IsTrue (is_some (map.get self.old.asks serial.now)) }
        ensures { self.new ≡ watch_assigned self.old onu serial.now followed }
    {
        self.give_up_of(serial);
        self.give_up(onu);
        if followed {
            self.hold(onu, serial);
        } else {
            self.lose(onu);
        }
    }

    /// Notes an Assign_ONU-ID.
    fn note_assign(&mut self, onu: u8, serial: &Serial) -> Result<(), AllocError>
        ensures ok { OnOk result (self.new ≡ noted self.old (AssignOnu onu serial.now)) }
        ensures same { OnErr result (self.new ≡ self.old) }
        ensures new { OnErr result (IsNew self.old (Some serial.now)) }
    {
        let followed = self.take_ask(serial)?;
        if onu <= LAST_ONU {
            self.give_to(onu, serial, followed);
        }
        Ok(())
    }

    /// Notes a Ranging_Time.
    fn note_range(&mut self, onu: u8, eqd: u32)
        ensures { self.new ≡ noted self.old (RangingTime onu eqd) }
    {
        self.set_delay(onu, eqd);
    }

    /// Notes a Deactivate_ONU-ID.
    fn note_deactivate(&mut self, onu: u8)
        ensures { self.new ≡ noted self.old (Deactivate onu) }
    {
        if onu == BROADCAST_ONU {
            self.give_up_all();
        } else {
            self.give_up(onu);
        }
    }

    /// Notes a Disable_Serial_Number.
    fn note_disable(&mut self, serial: &Serial) -> Result<(), AllocError>
        ensures ok { OnOk result (self.new ≡ noted self.old (DisableSerial serial.now)) }
        ensures same { OnErr result (self.new ≡ self.old) }
        ensures new { OnErr result (IsNew self.old (Some serial.now)) }
    {
        let followed = self.follow(serial)?;
        self.give_up_of(serial);
        if followed {
            self.disable(serial);
        }
        Ok(())
    }

    /// Notes that a serial number is enabled.
    fn note_enable(&mut self, serial: &Serial)
        ensures { self.new ≡ noted self.old (EnableSerial serial.now) }
    {
        self.enable(serial);
    }

    /// Notes that all serial numbers are enabled.
    fn note_enable_all(&mut self)
        ensures { self.new ≡ noted self.old EnableAll }
    {
        self.enable_all();
    }

    /// Notes an Assign_Alloc-ID.
    fn note_alloc(&mut self, onu: u8, alloc: u16, keep: bool)
        requires { alloc ≤ last_alloc_id }
        ensures { self.new ≡ noted self.old (AssignAlloc onu alloc keep) }
    {
        self.assign_alloc(onu, alloc, keep);
    }

    /// Notes a POPUP.
    fn note_pop_up(&mut self, onu: u8)
        ensures { self.new ≡ noted self.old (Popup onu) }
    {
        if onu == BROADCAST_ONU {
            self.clear_delays();
        }
    }

    /// Notes a message down. Fails only where there is no memory for a serial number that is new, and notes nothing
    /// then.
    fn note(&mut self, message: &Down) -> Result<(), AllocError>
        requires { IsFittingDown message.now }
        ensures ok { OnOk result (self.new ≡ noted self.old message.now) }
        ensures same { OnErr result (self.new ≡ self.old) }
        ensures new { OnErr result (IsNew self.old (followed_by message.now)) }
    {
        match *message {
            Down::AssignOnu { onu, serial } => self.note_assign(onu, &serial)?,
            Down::RangingTime { onu, eqd } => self.note_range(onu, eqd),
            Down::Deactivate { onu } => self.note_deactivate(onu),
            Down::DisableSerial { serial } => self.note_disable(&serial)?,
            Down::EnableSerial { serial } => self.note_enable(&serial),
            Down::EnableAll => self.note_enable_all(),
            Down::AssignAlloc { onu, alloc, keep } => self.note_alloc(onu, alloc, keep),
            Down::Popup { onu } => self.note_pop_up(onu),
            Down::UpstreamOverhead { .. } | Down::NoMessage | Down::Other { .. } => {}
        }
        Ok(())
    }

    /// Tells whether a copy of a message down is passed over: in the middle those of the first message are, since
    /// others may have been sent before them.
    pub fn passes_over(&self, message: &Down) -> bool
        ensures { result ≡ passes_over self.now message.now }
    {
        self.is_cut() && (self.last() == Down::NoMessage || self.last() == *message)
    }

    /// Tells whether a copy of a message down begins three: it is the first one, the first behind three others, or
    /// one of another message. In the middle it may be passed over all the same.
    pub fn tells(&self, message: &Down) -> bool
        ensures { result ≡ tells self.now message.now }
    {
        self.to_come() == 0 || self.last() != *message
    }

    /// Tells whether a message down is told with this copy: it begins three, and isn't passed over.
    pub fn is_new(&self, message: &Down) -> bool
        ensures { result ≡ is_new self.now message.now }
    {
        !self.passes_over(message) && self.tells(message)
    }

    /// Notes a copy of a message down.
    fn hear_copy(&mut self, message: &Down) -> Result<(), AllocError>
        requires { IsFittingDown message.now }
        ensures ok { OnOk result (self.new ≡ copy_heard self.old message.now) }
        ensures same { OnErr result (self.new ≡ self.old) }
        ensures new { OnErr result (IsNew self.old (followed_by_copy self.old message.now)) }
    {
        if self.passes_over(message) {
            self.pass_over(message);
        } else if self.tells(message) {
            self.note(message)?;
            self.begin_copies(message);
        } else {
            self.note_copy();
        }
        Ok(())
    }

    /// Notes a code down; None where its check octet is wrong.
    fn hear_down(&mut self, message: &Option<Down>) -> Result<(), AllocError>
        requires { IsFitting (heards.Down message.now) }
        ensures ok { OnOk result (self.new ≡ after_down self.old message.now) }
        ensures same { OnErr result (self.new ≡ self.old) }
        ensures new { OnErr result (IsNew self.old (followed_now self.old (heards.Down message.now))) }
    {
        match message {
            None | Some(Down::NoMessage) => Ok(()),
            Some(message) => self.hear_copy(message),
        }
    }

    /// Notes a serial number that a unit gives with an ONU-ID, or asks for one with, and its delay where it was
    /// measured.
    fn hear_serial(
        &mut self,
        onu: u8,
        serial: &Serial,
        delay: Option<u32>,
    ) -> Result<(), WatchFault>
        ensures ok { OnOk result (self.new ≡ serial_heard self.old onu serial.now delay) }
        ensures same { OnErr result (self.new ≡ self.old) }
        ensures fails { IfErr result (FailsBy self.old (if onu == broadcast_onu then Some serial.now else None)) }
    {
        if onu == BROADCAST_ONU {
            return self.note_ask(serial);
        }
        if self.is_of(serial, onu) {
            self.note_answer(onu, delay);
        }
        Ok(())
    }

    /// Notes a code up; None where its check octet is wrong.
    fn hear_up(&mut self, message: &Option<Up>, delay: Option<u32>) -> Result<(), WatchFault>
        ensures ok { OnOk result (self.new ≡ after_up self.old message.now delay) }
        ensures same { OnErr result (self.new ≡ self.old) }
        ensures fails { IfErr result (FailsBy self.old (followed_up message.now)) }
    {
        match message {
            Some(Up::SerialNumber { onu, serial, .. }) => self.hear_serial(*onu, serial, delay),
            _ => Ok(()),
        }
    }

    /// Notes what is heard. Memory is taken only where a serial number is new. Where it fails nothing is noted.
    pub fn hear(&mut self, heard: &Heard) -> Result<(), WatchFault>
        requires { IsFitting heard.now }
        ensures ok { OnOk result (self.new ≡ watch_after self.old (heard_of heard.now)) }
        ensures same { OnErr result (self.new ≡ self.old) }
        ensures fails { IfErr result (FailsOn self.old heard.now) }
    {
        match heard {
            Heard::Down(message) => Ok(self.hear_down(message)?),
            Heard::Up { message, delay } => self.hear_up(message, *delay),
            Heard::Grant(_) => Ok(()),
        }
    }
}
