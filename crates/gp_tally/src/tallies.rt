//! What is counted of several ports by the lines of a trace.
ghost use Rattle.std.specs.Prelude.{◌≡◌, ◌≤◌, IfOk, OnOk, OnErr, length, replicate};
ghost use Rattle.gp_tally.specs.Tally.{no_tally};
ghost use Rattle.gp_tally.specs.Ports.{CountsLine, told_at};

use crate::port_tally::PortTally;
use crate::reading::told_in;
use crate::told::Told;
use gp_ploam::Mask;
use std::alloc::{AllocError, Global};
use std::marker::Model;

/// What is counted of several ports, from port 0 on. Contracts see a list.
#[derive(Drop)]
pub struct Tallies {
    ports: Vec<PortTally>,
}

impl Model for Tallies {
    ghost use Rattle.std.specs.Prelude.{List};
    ghost use Rattle.std.specs.Coded.{codes};
    ghost use Rattle.std.specs.FinMap as map;
    ghost use Rattle.gp_ploam.specs.Serials.{serial_cmp, coded_serial};
    ghost use Rattle.gp_tally.specs.contracts.counts.PortCounts as port;
    ghost use Rattle.gp_tally.specs.contracts.counts.UnitCounts as unit;
    ghost use Rattle.gp_tally.specs.Tally as spec;

    ghost Value = { List spec.PortTally };

    ghost coded = { Prim.hlevel
        (codes, coded_serial, port.the_row.coded, map.code {R = serial_cmp} coded_serial unit.the_row.coded) };

    ghost view = { λ t. t.ports.items };
}

impl Tallies {
    /// Nothing was counted of so many ports. Takes memory for the ports, and none for units.
    pub fn new(alloc: Global, ports: usize) -> Result<Tallies, AllocError>
        ensures { IfOk result (λ tallies. tallies ≡ replicate ports no_tally) }
    {
        let mut tallies = Vec::with_capacity(alloc, ports)?;
        for _ in 0..ports {
            tallies.push_reserved(PortTally::new(alloc));
        }
        Ok(Tallies { ports: tallies })
    }

    /// Gives what was counted of each port.
    pub fn as_slice(&self) -> &[PortTally]
        ensures { result.now ≡ self.now }
    {
        self.ports.as_slice()
    }

    /// Counts what a line tells of a port; of none of these ports, nothing.
    fn note(&mut self, port: u8, told: &Told) -> Result<(), AllocError>
        ensures ok { OnOk result (self.new ≡ told_at self.old port told.now) }
        ensures same { OnErr result (self.new ≡ self.old) }
    {
        match self.ports.get_mut(usize::from(port)) {
            Some(tally) => tally.note(told),
            None => Ok(()),
        }
    }

    /// Counts what a line of a trace tells, which stands without its line feed and whose codes are under this mask; of
    /// any other line, nothing. Fails only where a unit is new, and there is no memory; nothing is counted then.
    pub fn count_line(&mut self, mask: Mask, text: &[u8]) -> Result<(), AllocError>
        ensures ok { OnOk result (CountsLine mask text.now self.old self.new) }
        ensures same { OnErr result (self.new ≡ self.old) }
    {
        match told_in(mask, text) {
            Some((port, told)) => self.note(port, &told),
            None => Ok(()),
        }
    }
}
