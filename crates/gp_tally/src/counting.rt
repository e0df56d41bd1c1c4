//! `Counting`, a writer that passes on what it is handed, and counts the lines of it.
ghost use Rattle.std.specs.Prelude.{◌≡◌, [], length};
ghost use Rattle.std.specs.Io.KnownBytes.{Appends};

use crate::began::Began;
use crate::counter::Counter;
use std::io;
use std::io::Write;
use std::marker::{Model, PhantomData};

/// A writer that passes on what it is handed to the writer below, and counts the lines of what that took. Where memory
/// for the counts is refused, it goes on to write. Contracts see its counter and the writer below.
#[derive(Drop)]
pub struct Counting<B: Began, W: Write> {
    inner: W,
    counter: Counter,
    of: PhantomData<B>,
}

impl<B: Began, W: Write> Model for Counting<B, W> {
    ghost use Rattle.std.specs.Prelude.{◌≡◌, length};
    ghost use Rattle.std.specs.Io.KnownBytes.{Appends};
    ghost use Rattle.std.specs.Coded.{codes};
    ghost use Rattle.std.specs.FinMap as map;
    ghost use Rattle.gp_ploam.specs.Serials.{serial_cmp, coded_serial};
    ghost use Rattle.gp_tally.specs.contracts.counts.PortCounts as port;
    ghost use Rattle.gp_tally.specs.contracts.counts.UnitCounts as unit;
    ghost use Rattle.gp_tally.specs.Counting.{CountingState};

    ghost Value = { CountingState W };

    ghost coded = { Prim.hlevel
        (codes, coded_serial, port.the_row.coded, map.code {R = serial_cmp} coded_serial unit.the_row.coded) };

    ghost view = { λ c. record { counter = c.counter; inner = c.inner } };

    ghost invariant = { λ c. Appends B.held (W.contents c.inner) c.counter.taken × (c.counter.mask ≡ B.mask)
        × (length c.counter.ports ≡ B.ports) };
}

impl<B: Began, W: Write> Counting<B, W> {
    /// Counts by a counter that was handed nothing yet.
    pub fn new(counter: Counter, inner: W) -> Self
        requires nothing { counter.taken ≡ [] }
        requires mask { counter.mask ≡ B.mask }
        requires ports { length counter.ports ≡ B.ports }
        requires held { W.contents inner ≡ B.held }
        ensures { result ≡ record { counter = counter; inner = inner } }
    {
        Counting {
            inner,
            counter,
            of: PhantomData,
        }
    }

    /// Gives the counter.
    pub fn counter(&self) -> &Counter
        ensures counter { result.now ≡ self.now.counter }
        ensures mask { result.now.mask ≡ B.mask }
        ensures ports { length result.now.ports ≡ B.ports }
    {
        &self.counter
    }

    /// States that the writer below took all that was handed on, and nothing else.
    pub fn passed_on(&self)
        ensures { Appends B.held (W.contents self.now.inner) self.now.counter.taken }
    {
        let _ = &self.counter;
    }

    /// Returns the writer below, and the counter.
    pub fn into_parts(self) -> (W, Counter)
        ensures { result ≡ (self.inner, self.counter) }
    {
        let Counting {
            inner,
            counter,
            of: _,
        } = self;
        (inner, counter)
    }
}

impl<B: Began, W: Write> Write for Counting<B, W> {
    ghost use Rattle.std.specs.Prelude.{Some};

    ghost contents = { λ s. Some s.counter.taken };

    fn write(&mut self, bytes: &[u8]) -> io::Result<usize> {
        let count = self.inner.write(bytes)?;
        self.counter.take(&bytes[..count]);
        Ok(count)
    }

    fn flush(&mut self) -> io::Result<()> {
        self.inner.flush()
    }
}
