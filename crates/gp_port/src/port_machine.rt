//! The machine of a port without its licences: `PortMachine`, one step of it by the kind of event, and what the tables
//! ask of it. Contracts see its `PortState`; no step takes memory.
ghost use Rattle.std.specs.Prelude.{◌≡◌, ℕ, ◌+◌, ◌<◌, ◌≤◌, ◌^◌, IfOk, IfSome, None, Some, is_some, length, true, false, IsErrOf, ◌↔◌};
ghost use Rattle.std.specs.FinMap as map;
ghost use Rattle.std.specs.FinSet as set;
ghost use Rattle.std.specs.List.{list_any};
ghost use Rattle.std.specs.Option.{ForSome};
ghost use Rattle.gp_ploam.specs.OnuIds.{onu_ids};
ghost use Rattle.gp_volley.specs.Copies.{max_copies};
ghost use Rattle.gp_ploam.specs.Down.{IsProperDown};
ghost use Rattle.gp_ploam.specs.Serials.{is_among};
ghost use Rattle.gp_unit.specs.Sound.{IsSoundRow};
ghost use Rattle.gp_machine.specs.Config.{is_within_limits};
ghost use Rattle.gp_machine.specs.State.{HasRow, IsFree, IsFreeAlloc, IsLeastRanging, IsNextPoll, has_free_alloc, has_free_onu, opening_of, rows_of, unit_with};
ghost use Rattle.gp_machine.specs.SearchWindow.{is_assign};
ghost use Rattle.gp_machine.specs.Sound.{IsSound};
ghost use Rattle.gp_machine.specs.Changes.{step_result_of};
ghost use Rattle.gp_machine.specs.Responses as spec;
ghost use Rattle.gp_machine.specs.Step.{Step};
ghost use Rattle.gp_port.specs.Numbers.{GrantsWish};

use super::open::OpenFault;
use gp_common::Common;
use gp_machine::{
    Answer, Event, PortConfig, Row, finds_unit_with, one_outcome, tells_free_numbers,
};
use gp_ploam::{Down, ONU_IDS, Serial};
use gp_ranging::Window;
use gp_table::{ActiveUnits, NumberLimits, UnitEntry};
use gp_volley::{COPIES, MAX_COPIES_WITH_ROOM, VolleyQueue};
use std::alloc::Global;
use std::marker::Model;

/// The activation machine of one port without its licences: each call is told how many licences are at hand, and
/// tells how many are left. Contracts see the state of the machine; nothing is said of its soundness here.
pub struct PortMachine {
    pub(super) config: PortConfig,
    pub(super) units: ActiveUnits,
    pub(super) common: Common,
    pub(super) wanted: bool,
    pub(super) timer: u32,
    pub(super) window: Option<Window>,
    pub(super) owed: VolleyQueue,
    pub(super) polled: Option<u8>,
}

impl Model for PortMachine {
    ghost use Rattle.gp_machine.specs.Codes.{port_codes};
    ghost use Rattle.gp_machine.specs.State.{PortState};
    ghost use Rattle.gp_port.specs.Parts.{state_with, IsAssembled};

    ghost Value = { PortState };

    ghost coded = { Prim.hlevel port_codes };

    ghost view = { λ c. state_with c.config c.units c.common c.wanted c.timer c.window c.owed c.polled };

    ghost invariant = { λ c. IsAssembled c.config c.units c.owed };
}

impl PortMachine {
    /// Opens a port with no units, in standby. All the memory that it ever needs is taken here: for a copy of the
    /// config, 254 units and 64 messages. `OpenFault` says when it is not opened.
    pub fn begin(alloc: Global, config: &PortConfig) -> Result<PortMachine, OpenFault>
        ensures opening { IfOk result (λ port. port ≡ opening_of config.now) }
        ensures within { IfOk result (λ _. is_within_limits config.now ≡ true) }
        ensures limit { IsErrOf result OpenFault.Limit ↔ (is_within_limits config.now ≡ false) }
    {
        if !config.is_within_limits() {
            return Err(OpenFault::Limit);
        }
        let config = config.try_clone(alloc)?;
        let limits = NumberLimits {
            max_units: config.max_units,
            alloc_last: config.alloc_last,
            quarantine: config.quarantine,
        };
        let units = ActiveUnits::begin(alloc, config.admitted.as_slice(), limits)?;
        let owed = VolleyQueue::begin(alloc)?;
        Ok(PortMachine {
            config,
            units,
            common: Common::Standby,
            wanted: false,
            timer: 0,
            window: None,
            owed,
            polled: None,
        })
    }

    /// Gives what the port was opened with.
    pub fn config(&self) -> &PortConfig
        ensures { result.now ≡ self.now.config }
    {
        &self.config
    }

    /// Tells what is known of the unit with this serial number, if it is active.
    pub fn row_of(&self, serial: &Serial) -> Option<Row>
        ensures { result ≡ map.get self.now.rows serial.now }
    {
        self.units.row_of(serial)
    }

    /// Tells whether the serial number is disabled.
    pub fn is_disabled(&self, serial: &Serial) -> bool
        ensures { result ≡ set.contains self.now.disabled serial.now }
    {
        self.units.is_disabled(serial)
    }

    /// Tells how many units are active.
    pub fn rows(&self) -> usize
        ensures { result ≡ rows_of self.now }
    {
        self.units.len()
    }

    /// Tells how many copies of messages are still to be sent.
    pub fn owed(&self) -> usize
        ensures owed { result ≡ length self.now.owed }
        ensures most { result ≤ max_copies }
    {
        self.owed.len_copies()
    }

    /// Tells the common state.
    pub fn common(&self) -> Common
        ensures { result ≡ self.now.common }
    {
        self.common
    }

    /// Ends the port. A window that is open is closed, and what is still owed is not sent.
    pub fn close(self) {
        let PortMachine {
            config: _,
            units: _,
            common: _,
            wanted: _,
            timer: _,
            window,
            owed,
            polled: _,
        } = self;
        if let Some(window) = window {
            window.close();
        }
        owed.close();
    }

    /// Makes one step of the machine with so many licences at hand, which leaves room for one more, writes its answer,
    /// and gives how many licences are left; a number that it hands out is the wished one, where that is free. It takes
    /// no memory.
    pub fn step_into(
        &mut self,
        purse: u64,
        event: Event,
        wished: Option<u16>,
        answer: &mut Answer,
    ) -> u64
        requires limits { is_within_limits self.old.config ≡ true }
        requires sound { IsSound self.old }
        requires purse { purse < 2 ^ 32 }
        ensures step { Step purse self.old event (step_result_of (answer.new, result) self.new) }
        ensures wished { GrantsWish purse self.old event wished (step_result_of (answer.new, result) self.new) }
        ensures proper { ForSome answer.new.sent IsProperDown }
    {
        one_outcome();
        // The invariant is known once a field is looked at.
        let _ = &self.config;
        match event {
            Event::Frame => self.frame(purse, answer),
            Event::Burst { at, bytes } => self.burst(purse, at, &bytes, wished, answer),
            Event::Command(command) => {
                let (given, left) = self.command(purse, command, wished);
                *answer = given;
                left
            }
        }
    }

    /// Tells what is known of an admitted unit; None where it is not admitted.
    pub(super) fn look_up(&self, serial: &Serial) -> Option<UnitEntry>
        ensures admitted { is_some result ≡ is_among serial.now self.now.config.admitted }
        ensures disabled { IfSome result (λ known. known.disabled ≡ set.contains self.now.disabled serial.now) }
        ensures row { IfSome result (λ known. known.row ≡ map.get self.now.rows serial.now) }
    {
        self.units.look_up(serial)
    }

    /// Finds the unit with this ONU-ID.
    pub(super) fn unit_with(&self, onu: u8) -> Option<(Serial, Row)>
        requires { IsSound self.now }
        ensures unit { result ≡ unit_with self.now.rows onu }
        ensures has { IfSome result (λ unit. HasRow self.now.rows unit.0 unit.1) }
        ensures fits { IfSome result (λ unit. IsSoundRow self.now.config.alloc_last unit.1) }
    {
        finds_unit_with();
        match self.units.holder(onu) {
            Some(unit) => Some((unit.serial, unit.row)),
            None => None,
        }
    }

    /// Finds the least ONU-ID of a ranging unit.
    pub(super) fn least_ranging(&self) -> Option<u8>
        ensures { IsLeastRanging self.now.rows result }
    {
        self.units.least_ranging()
    }

    /// Finds the ONU-ID of the operating unit that is polled next.
    pub(super) fn next_poll(&self) -> Option<u8>
        ensures { IsNextPoll self.now.rows self.now.polled result }
    {
        self.units.next_poll(self.polled)
    }

    /// Tells whether a burst or a command may owe a message.
    pub(super) fn has_room(&self) -> bool
        ensures { result ≡ spec.has_room self.now }
    {
        self.owed.len_copies() + usize::from(COPIES) <= MAX_COPIES_WITH_ROOM
    }

    /// Tells whether the unit is still to be told its ONU-ID.
    pub(super) fn owes_assign(&self, onu: u8, serial: Serial) -> bool
        ensures { result ≡ list_any (is_assign onu serial) self.now.owed }
    {
        self.owed.owes(&Down::AssignOnu { onu, serial })
    }

    /// Finds an ONU-ID for a new unit: the wished one where it is free, else any free one. None where none is free.
    pub(super) fn free_onu(&self, wished: Option<u16>) -> Option<u8>
        ensures told { is_some result ≡ has_free_onu self.now }
        ensures free { IfSome result (IsFree self.now) }
        ensures wished { IfSome result
            (λ onu. (number : ℕ) → wished ≡ Some number → IsFree self.now number → onu ≡ number) }
    {
        tells_free_numbers();
        self.units.free_onu(octet_of(wished))
    }

    /// Finds a further Alloc-ID for a unit: the wished one where it is free, else any free one. None where none is
    /// free.
    pub(super) fn free_alloc(&self, wished: Option<u16>) -> Option<u16>
        ensures told { is_some result ≡ has_free_alloc self.now }
        ensures free { IfSome result (IsFreeAlloc self.now) }
        ensures wished { IfSome result
            (λ alloc. (number : ℕ) → wished ≡ Some number → IsFreeAlloc self.now number → alloc ≡ number) }
    {
        tells_free_numbers();
        self.units.free_alloc(wished)
    }
}

/// The wished number, where it is an octet.
fn octet_of(wished: Option<u16>) -> Option<u8>
    ensures { (number : ℕ) → wished ≡ Some number → number < onu_ids → result ≡ Some number }
{
    match wished {
        Some(number) if number < u16::from(ONU_IDS) => Some(number as u8),
        _ => None,
    }
}
