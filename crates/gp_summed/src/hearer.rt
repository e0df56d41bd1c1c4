//! `Hearer`, which hears the lines of a text that comes in any pieces: a line that stands whole in a piece is heard
//! where it stands, and only one that goes on in the next piece is copied.
ghost use Rattle.std.specs.Prelude.{◌≡◌, ◌++◌, ◌∷◌, [], true, IfOk, OnErr, OnOk};
ghost use Rattle.gp_audit.specs.Listening.{HearsLine};
ghost use Rattle.gp_tally.specs.Text.{IsOneLine};
ghost use Rattle.gp_summed.specs.Hearing.{AreHeard, hearer_begun};

use gp_audit::Listener;
use gp_ploam::Mask;
use gp_stream::Taken;
use gp_watch::WatchFault;
use memchr::memchr;
use std::alloc::{AllocError, Global};
use std::marker::Model;

/// The octet that ends a line.
const LINE_FEED: u8 = b'\n';

/// How much room a line has at first.
const LINE_ROOM: usize = 512;

/// Hears the lines of a text that comes in any pieces. Contracts see what it was handed, the mask of its codes, what is
/// known of each port, and whether something could not be heard, for want of memory, or since a serial number asked too
/// often (2^64 - 1 times): from then on nothing is known.
#[derive(Drop)]
pub(crate) struct Hearer {
    listener: Listener,
    line: Vec<u8>,
    refused: bool,
    taken: Taken,
}

impl Model for Hearer {
    ghost use Rattle.std.specs.Coded.{codes};
    ghost use Rattle.gp_census.specs.Kept.{census_code};
    ghost use Rattle.gp_watch.specs.Kept.{watch_code};
    ghost use Rattle.gp_summed.specs.Hearing.{HearerState, IsHearing};

    ghost Value = { HearerState };

    ghost coded = { Prim.hlevel (codes, watch_code, census_code) };

    ghost view = { λ h. record {
      taken = h.taken.octets;
      mask = h.listener.mask;
      ports = h.listener.ports;
      refused = h.refused;
    } };

    ghost invariant = { λ h. IsHearing h.refused h.listener.mask h.taken.octets h.line.items h.listener.ports };
}

/// Hears a line that is what was kept and this part.
fn hear_kept(listener: &mut Listener, line: &mut Vec<u8>, part: &[u8]) -> Result<(), WatchFault>
    ensures heard { OnOk result (HearsLine listener.old.mask (line.old.items ++ part.now) listener.old.ports
        listener.new.ports) }
    ensures cleared { OnOk result (line.new.items ≡ []) }
    ensures mask { listener.new.mask ≡ listener.old.mask }
{
    line.extend_from_slice(part)?;
    listener.hear(line.as_slice())?;
    line.clear();
    Ok(())
}

/// Hears a line that is what was kept and this part: where nothing was kept, it is not copied.
fn hear_whole(listener: &mut Listener, line: &mut Vec<u8>, part: &[u8]) -> Result<(), WatchFault>
    ensures heard { OnOk result (HearsLine listener.old.mask (line.old.items ++ part.now) listener.old.ports
        listener.new.ports) }
    ensures cleared { OnOk result (line.new.items ≡ []) }
    ensures mask { listener.new.mask ≡ listener.old.mask }
{
    if line.is_empty() {
        listener.hear(part)
    } else {
        hear_kept(listener, line, part)
    }
}

impl Hearer {
    /// Begins with a text whose codes are under this mask. Takes memory for the ports and for a line.
    pub(crate) fn new(alloc: Global, mask: Mask) -> Result<Hearer, AllocError>
        ensures { IfOk result (λ hearer. hearer ≡ hearer_begun mask) }
    {
        let listener = Listener::begin(alloc, mask)?;
        let line = Vec::with_capacity(alloc, LINE_ROOM)?;
        Ok(Hearer {
            listener,
            line,
            refused: false,
            taken: Taken::new(),
        })
    }

    /// Gives what is known of the ports, unless something could not be heard.
    pub(crate) fn listener(&self) -> Result<&Listener, AllocError>
        ensures heard { IfOk result (λ listener. AreHeard self.now.mask self.now.taken listener.now.ports) }
        ensures refused { OnErr result (self.now.refused ≡ true) }
    {
        if self.refused {
            return Err(AllocError);
        }
        Ok(&self.listener)
    }

    /// Keeps a part of a line.
    fn keep(&mut self, part: &[u8])
        requires { IsOneLine part.now }
        ensures taken { self.new.taken ≡ self.old.taken ++ part.now }
        ensures mask { self.new.mask ≡ self.old.mask }
    {
        self.taken.note(part);
        let kept = self.line.extend_from_slice(part);
        self.refused |= kept.is_err();
    }

    /// Hears the line that this part ends.
    fn end(&mut self, part: &[u8])
        requires { IsOneLine part.now }
        ensures taken { self.new.taken ≡ self.old.taken ++ part.now ++ 10 ∷ [] }
        ensures mask { self.new.mask ≡ self.old.mask }
    {
        let heard = hear_whole(&mut self.listener, &mut self.line, part);
        self.refused |= heard.is_err();
        self.taken.note(part);
        self.taken.note(b"\n");
    }

    /// Takes octets behind those that it has, in any pieces, and hears each line at its line feed. Takes memory where
    /// a unit is new, and where a line is open at the end of a piece.
    pub(crate) fn take(&mut self, octets: &[u8])
        ensures taken { self.new.taken ≡ self.old.taken ++ octets.now }
        ensures mask { self.new.mask ≡ self.old.mask }
    {
        let mut rest = octets;
        'lines: while !rest.is_empty() {
            let Some(count) = memchr(LINE_FEED, rest) else {
                self.keep(rest);
                return;
            };
            self.end(&rest[..count]);
            rest = &rest[count + 1..];
        }
    }
}
