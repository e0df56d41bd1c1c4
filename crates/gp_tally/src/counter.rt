//! `Counter`, which counts the lines of a text that comes in any pieces: a line that stands whole in a piece is counted
//! where it stands, and only one that goes on in the next piece is copied.
ghost use Rattle.std.specs.Prelude.{◌≡◌, ◌++◌, ◌∷◌, [], false, true, All, IfOk, IsErr, IsTrue, OnErr, OnOk, length};
ghost use Rattle.gp_lines.specs.Trace.{is_feed};
ghost use Rattle.gp_tally.specs.Ports.{CountsLine};
ghost use Rattle.gp_tally.specs.Text.{AreTallies, IsOneLine};
ghost use Rattle.gp_tally.specs.Counter.{Began};

use crate::port_tally::PortTally;
use crate::tallies::Tallies;
use gp_ploam::Mask;
use gp_stream::Taken;
use gp_trace::MAX_LINE;
use memchr::memchr;
use std::alloc::{AllocError, Global};
use std::marker::Model;

/// The octet that ends a line.
const LINE_FEED: u8 = b'\n';

/// Counts the lines of a text that comes in any pieces. Contracts see what it was handed, the mask of its codes, what
/// is counted, and whether memory was refused: from then on nothing more is counted.
#[derive(Drop)]
pub struct Counter {
    tallies: Tallies,
    mask: Mask,
    line: Vec<u8>,
    refused: bool,
    taken: Taken,
}

impl Model for Counter {
    ghost use Rattle.std.specs.Coded.{codes};
    ghost use Rattle.std.specs.FinMap as map;
    ghost use Rattle.gp_ploam.specs.Serials.{serial_cmp, coded_serial};
    ghost use Rattle.gp_tally.specs.contracts.counts.PortCounts as port;
    ghost use Rattle.gp_tally.specs.contracts.counts.UnitCounts as unit;
    ghost use Rattle.gp_tally.specs.Counter.{CounterState, IsCounting};

    ghost Value = { CounterState };

    ghost coded = { Prim.hlevel
        (codes, coded_serial, port.the_row.coded, map.code {R = serial_cmp} coded_serial unit.the_row.coded) };

    ghost view = { λ c. record { taken = c.taken.octets; mask = c.mask; ports = c.tallies; refused = c.refused } };

    ghost invariant = { λ c. IsCounting c.refused c.mask c.taken.octets c.line.items c.tallies };
}

/// Counts a line that is what was kept and this part.
fn count_kept(
    tallies: &mut Tallies,
    mask: Mask,
    line: &mut Vec<u8>,
    part: &[u8],
) -> Result<(), AllocError>
    ensures counted { OnOk result (CountsLine mask (line.old.items ++ part.now) tallies.old tallies.new) }
    ensures cleared { OnOk result (line.new.items ≡ []) }
    ensures same { OnErr result (tallies.new ≡ tallies.old) }
{
    line.extend_from_slice(part)?;
    tallies.count_line(mask, line.as_slice())?;
    line.clear();
    Ok(())
}

/// Counts a line that is what was kept and this part: where nothing was kept, it is not copied.
fn count_whole(
    tallies: &mut Tallies,
    mask: Mask,
    line: &mut Vec<u8>,
    part: &[u8],
) -> Result<(), AllocError>
    ensures counted { OnOk result (CountsLine mask (line.old.items ++ part.now) tallies.old tallies.new) }
    ensures cleared { OnOk result (line.new.items ≡ []) }
    ensures same { OnErr result (tallies.new ≡ tallies.old) }
{
    if line.is_empty() {
        tallies.count_line(mask, part)
    } else {
        count_kept(tallies, mask, line, part)
    }
}

impl Counter {
    /// Begins with a text whose codes are under this mask, and with so many ports. Takes memory for the ports and for a
    /// line.
    pub fn new(alloc: Global, mask: Mask, ports: usize) -> Result<Counter, AllocError>
        ensures { IfOk result (Began mask ports) }
    {
        let tallies = Tallies::new(alloc, ports)?;
        let line = Vec::with_capacity(alloc, MAX_LINE)?;
        Ok(Counter {
            tallies,
            mask,
            line,
            refused: false,
            taken: Taken::new(),
        })
    }

    /// Gives what is counted of each port, unless memory was refused for it.
    pub fn ports(&self) -> Result<&[PortTally], AllocError>
        ensures counted { IfOk result (λ ports. AreTallies self.now.mask self.now.taken ports.now) }
        ensures ports { IfOk result (λ ports. ports.now ≡ self.now.ports) }
        ensures refused { OnErr result (self.now.refused ≡ true) }
    {
        if self.refused {
            return Err(AllocError);
        }
        Ok(self.tallies.as_slice())
    }

    /// Keeps a part of a line.
    fn keep(&mut self, part: &[u8])
        requires { IsOneLine part.now }
        ensures taken { self.new.taken ≡ self.old.taken ++ part.now }
        ensures mask { self.new.mask ≡ self.old.mask }
        ensures ports { length self.new.ports ≡ length self.old.ports }
    {
        self.taken.note(part);
        let kept = self.line.extend_from_slice(part);
        self.refused |= kept.is_err();
    }

    /// Counts the line that this part ends.
    fn end(&mut self, part: &[u8])
        requires { IsOneLine part.now }
        ensures taken { self.new.taken ≡ self.old.taken ++ part.now ++ 10 ∷ [] }
        ensures mask { self.new.mask ≡ self.old.mask }
        ensures ports { length self.new.ports ≡ length self.old.ports }
    {
        let counted = count_whole(&mut self.tallies, self.mask, &mut self.line, part);
        self.refused |= counted.is_err();
        self.taken.note(part);
        self.taken.note(b"\n");
    }

    /// Takes octets behind those that it has, in any pieces, and counts each line at its line feed. Takes memory where
    /// a unit is new, and where a line is open at the end of a piece that is longer than any of a trace.
    pub fn take(&mut self, octets: &[u8])
        ensures taken { self.new.taken ≡ self.old.taken ++ octets.now }
        ensures mask { self.new.mask ≡ self.old.mask }
        ensures ports { length self.new.ports ≡ length self.old.ports }
    {
        let mut rest = octets;
        'lines: while !rest.is_empty() {
            let Some(count) = memchr(LINE_FEED, rest) else {
                self.keep(rest);
                return;
            };
            self.end(&rest[..count]);
            rest = &rest[count + 1..];
        }
    }
}
