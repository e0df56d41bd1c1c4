//! What is declared, the last time, and what is put behind that.
ghost use Rattle.std.specs.Prelude.{◌≡◌, ◌<◌, ◌++◌, IfOk, IfSome, None, Some, true, false};
ghost use Rattle.gp_machine.specs.Config.{max_ports};
ghost use Rattle.gp_dump.specs.Dump as spec;
ghost use Rattle.gp_dump.specs.Text.{change_text};

use crate::change::Change;
use crate::text::{push_port_change, push_time, push_unit_change};
use gp_machine::MAX_PORTS;
use std::alloc::AllocError;
use std::marker::Model;

/// How many ports there are.
pub const PORTS: usize = MAX_PORTS as usize;

/// Which ports are declared, each with how many lanes, and the last time that was written. Contracts see just that.
#[derive(Drop)]
pub struct Dump {
    ports: [Option<u16>; PORTS],
    last: Option<u64>,
}

impl Model for Dump {
    ghost use Rattle.gp_dump.specs.Dump.{DumpState};

    ghost Value = { DumpState };

    ghost view = { λ d. record { ports = d.ports; last = d.last } };
}

/// Tells whether a port of so many lanes has this one.
fn has_lane(lane: u16, lanes: Option<u16>) -> bool
    ensures { result ≡ spec.has_lane lane lanes }
{
    match lanes {
        Some(lanes) => lane < lanes,
        None => false,
    }
}

impl Dump {
    /// Behind the declarations of these ports.
    pub fn begin(ports: [Option<u16>; PORTS]) -> Dump
        ensures { result ≡ record { ports = ports; last = None } }
    {
        Dump { ports, last: None }
    }

    /// Gives how many lanes a port has, if it is declared.
    fn lanes_of(&self, port: u8) -> Option<u16>
        ensures value { result ≡ spec.lanes_of self.now.ports port }
        ensures near { IfSome result (λ _. port < max_ports) }
    {
        let place = usize::from(port);
        if place < PORTS {
            self.ports[place]
        } else {
            None
        }
    }

    /// Tells whether the variable of a change is declared. No port but 0 to 15 is.
    pub fn declares(&self, change: &Change) -> bool
        ensures value { result ≡ spec.is_declared self.now.ports change.now }
        ensures near { result ≡ true → spec.port_of change.now < max_ports }
    {
        match change {
            Change::Port { number, .. } => self.lanes_of(*number).is_some(),
            Change::Unit { number, lane, .. } => has_lane(*lane, self.lanes_of(*number)),
        }
    }

    /// Appends a change at this time, in nanoseconds, and the time before it where that is behind the last one; where
    /// it is before the last one, the change stands at the last one. Tells whether the variable is declared: where it
    /// is not, nothing is appended. Where memory is refused, a part may have been appended, and the last time is as it
    /// was.
    pub fn put(&mut self, out: &mut Vec<u8>, time: u64, change: &Change) -> Result<bool, AllocError>
        ensures declared { IfOk result (λ declared. declared ≡ spec.is_declared self.old.ports change.now) }
        ensures text { IfOk result (λ declared. declared ≡ true → out.new.items
            ≡ out.old.items ++ (spec.time_text self.old.last time ++ change_text change.now)) }
        ensures last { IfOk result (λ declared. declared ≡ true
            → self.new ≡ record self.old { last = Some (spec.time_behind self.old.last time) }) }
        ensures nothing { IfOk result (λ declared. declared ≡ false → out.new.items ≡ out.old.items) }
        ensures same { IfOk result (λ declared. declared ≡ false → self.new ≡ self.old) }
    {
        if !self.declares(change) {
            return Ok(false);
        }
        push_time(out, self.last, time)?;
        match change {
            Change::Port { number, what } => push_port_change(out, *number, what)?,
            Change::Unit { number, lane, what } => push_unit_change(out, *number, *lane, what)?,
        }
        self.last = Some(match self.last {
            Some(last) => last.max(time),
            None => time,
        });
        Ok(true)
    }
}
