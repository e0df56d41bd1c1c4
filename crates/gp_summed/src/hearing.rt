//! `Hearing`, a writer that passes on what it is handed, counts the lines of it, and hears them.
ghost use Rattle.std.specs.Prelude.{◌≡◌};

use crate::hearer::Hearer;
use gp_tally::{Began, Counting};
use std::io;
use std::io::Write;
use std::marker::Model;

/// A writer that counts and hears what it passes on: that is what the writer below took. Where memory for it is
/// refused, it goes on to write. Contracts see the writer that counts, and the hearer.
#[derive(Drop)]
pub(crate) struct Hearing<B: Began, W: Write> {
    counting: Counting<B, W>,
    hearer: Hearer,
}

impl<B: Began, W: Write> Model for Hearing<B, W> {
    ghost use Rattle.std.specs.Prelude.{◌≡◌};
    ghost use Rattle.std.specs.Coded.{codes};
    ghost use Rattle.std.specs.FinMap as map;
    ghost use Rattle.gp_ploam.specs.Serials.{serial_cmp, coded_serial};
    ghost use Rattle.gp_census.specs.Kept.{census_code};
    ghost use Rattle.gp_watch.specs.Kept.{watch_code};
    ghost use Rattle.gp_tally.specs.contracts.counts.PortCounts as port;
    ghost use Rattle.gp_tally.specs.contracts.counts.UnitCounts as unit;
    ghost use Rattle.gp_summed.specs.Hearing.{HearingState};

    ghost Value = { HearingState W };

    ghost coded = { Prim.hlevel (
      codes,
      watch_code,
      census_code,
      coded_serial,
      port.the_row.coded,
      map.code {R = serial_cmp} coded_serial unit.the_row.coded,
    ) };

    ghost view = { λ h. record { counting = h.counting; hearer = h.hearer } };

    ghost invariant = { λ h. (h.hearer.taken ≡ h.counting.counter.taken) × (h.hearer.mask ≡ B.mask) };
}

impl<B: Began, W: Write> Hearing<B, W> {
    /// Counts and hears by ones that were handed nothing yet.
    pub(crate) fn new(counting: Counting<B, W>, hearer: Hearer) -> Self
        requires taken { hearer.taken ≡ counting.counter.taken }
        requires mask { hearer.mask ≡ B.mask }
        ensures { result ≡ record { counting = counting; hearer = hearer } }
    {
        Hearing { counting, hearer }
    }

    /// Returns the writer that counts, and the hearer, which were handed the same.
    pub(crate) fn into_parts(self) -> (Counting<B, W>, Hearer)
        ensures parts { result ≡ (self.counting, self.hearer) }
        ensures taken { self.hearer.taken ≡ self.counting.counter.taken }
        ensures mask { self.hearer.mask ≡ B.mask }
    {
        let Hearing { counting, hearer } = self;
        (counting, hearer)
    }
}

impl<B: Began, W: Write> Write for Hearing<B, W> {
    ghost use Rattle.std.specs.Prelude.{Some};

    ghost contents = { λ s. Some s.counting.counter.taken };

    fn write(&mut self, bytes: &[u8]) -> io::Result<usize> {
        let count = self.counting.write(bytes)?;
        self.hearer.take(&bytes[..count]);
        Ok(count)
    }

    fn flush(&mut self) -> io::Result<()> {
        self.counting.flush()
    }
}
