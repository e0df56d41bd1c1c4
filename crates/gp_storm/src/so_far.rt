//! What the rounds of a storm have told so far: where each port stands, and the totals.
ghost use Rattle.std.specs.Prelude.{◌≡◌, ◌↔◌, Err, IfOk, IfSome, IsTrue, List, Some, false, true};
ghost use Rattle.std.specs.List.{list_all};
ghost use Rattle.gp_machine.specs.declared.config.PortConfig.{PortConfig as AnyConfig};
ghost use Rattle.gp_workers.specs.Closing.{CutEnding};
ghost use Rattle.gp_storm.specs.Rounds.{AddUp, GoOn, IsSoFar, begins_port, ends_of, keeps_at_most};

use super::fault::StormFault;
use gp_journal::Piece;
use gp_port::PortImage;
use gp_workers::{Cut, Totals};
use std::alloc::{AllocError, Global};

/// What the rounds have told so far.
#[derive(Drop)]
pub(crate) struct SoFar {
    /// Where each port stands.
    pub(crate) ends: Vec<PortImage>,
    /// What all rounds add up to.
    pub(crate) totals: Totals,
}

/// Tells whether a piece begins at the opening of its port.
fn begins_port(piece: &Piece) -> bool
    ensures { result ≡ begins_port piece.now }
{
    piece.from.is_none()
}

/// Tells whether each of them does.
fn begin_ports(pieces: &[Piece]) -> bool
    ensures { result ≡ list_all begins_port pieces.now }
{
    pieces.iter().all(|piece| begins_port(piece))
}

/// Tells whether a piece begins where its port stood.
fn goes_on(end: &PortImage, piece: &Piece) -> bool
    ensures { IsTrue result ↔ (piece.now.from ≡ Some end.now) }
{
    match &piece.from {
        None => false,
        Some(from) => end.is_same_as(from),
    }
}

/// Tells whether each piece begins where its port stood.
fn go_on(ends: &[PortImage], pieces: &[Piece]) -> bool
    ensures { IsTrue result ↔ GoOn ends.now pieces.now }
{
    if ends.len() != pieces.len() {
        return false;
    }
    for port in 0..pieces.len() {
        if !goes_on(&ends[port], &pieces[port]) {
            return false;
        }
    }
    true
}

/// Tells whether a port has so many entries at most, from its opening to the end of a piece.
fn keeps_at_most(piece: &Piece, most: u32) -> bool
    ensures { result ≡ keeps_at_most most piece.now }
{
    piece.first.saturating_add(piece.len()) <= u64::from(most)
}

/// Tells whether each of them does.
fn keep_at_most(pieces: &[Piece], most: u32) -> bool
    ensures { result ≡ list_all (keeps_at_most most) pieces.now }
{
    pieces.iter().all(|piece| keeps_at_most(piece, most))
}

/// Takes out where each port stands behind its piece.
fn ends_of_pieces(alloc: Global, pieces: Vec<Piece>) -> Result<Vec<PortImage>, AllocError>
    ensures { IfOk result (λ ends. ends.items ≡ ends_of pieces.items) }
{
    let mut ends = Vec::with_capacity(alloc, pieces.len())?;
    for piece in pieces {
        let Piece { to, .. } = piece;
        ends.push_reserved(to);
    }
    Ok(ends)
}

/// Adds the counts of two totals, where 64 bits hold them. The units are those of the latter.
fn added(before: &Totals, later: &Totals) -> Option<Totals>
    ensures { IfSome result (AddUp before.now later.now) }
{
    Some(Totals {
        frames: before.frames.checked_add(later.frames)?,
        bursts: before.bursts.checked_add(later.bursts)?,
        commands: before.commands.checked_add(later.commands)?,
        los: before.los.checked_add(later.los)?,
        loam: before.loam.checked_add(later.loam)?,
        loa: before.loa.checked_add(later.loa)?,
        suf: before.suf.checked_add(later.suf)?,
        df: before.df.checked_add(later.df)?,
        dg: before.dg.checked_add(later.dg)?,
        units: later.units,
    })
}

impl SoFar {
    /// What the first round told. `JournalFull` where a port has more than `most` entries; a piece that doesn't begin
    /// at the opening of its port is a `Mismatch`, and comes of no cut.
    pub(crate) fn begun(alloc: Global, cut: Cut, most: u32) -> Result<SoFar, StormFault>
        ensures runs { IfOk result (λ so_far. (configs : List AnyConfig) → CutEnding configs cut.pieces.items cut.totals
            → IsSoFar configs so_far.ends.items so_far.totals) }
        ensures totals { IfOk result (λ so_far. so_far.totals ≡ cut.totals) }
        ensures kept { IfOk result (λ so_far. list_all (keeps_at_most most) cut.pieces.items ≡ true) }
        ensures limit { result ≡ Err StormFault.Limit → ⊥ }
        ensures full { result ≡ Err StormFault.JournalFull → list_all (keeps_at_most most) cut.pieces.items ≡ false }
    {
        let Cut { pieces, totals } = cut;
        if !begin_ports(pieces.as_slice()) {
            return Err(StormFault::Mismatch);
        }
        if !keep_at_most(pieces.as_slice(), most) {
            return Err(StormFault::JournalFull);
        }
        match ends_of_pieces(alloc, pieces) {
            Ok(ends) => Ok(SoFar { ends, totals }),
            Err(_) => Err(StormFault::OutOfMemory),
        }
    }

    /// The same with what a further round told. `JournalFull` where a port has more than `most` entries. It is a
    /// `Mismatch` where a piece doesn't begin where its port stood, which comes of no cut, or where 64 bits don't hold
    /// a count.
    pub(crate) fn joined(self, alloc: Global, cut: Cut, most: u32) -> Result<SoFar, StormFault>
        ensures runs { IfOk result (λ so_far. (configs : List AnyConfig) → IsSoFar configs self.ends.items self.totals
            → CutEnding configs cut.pieces.items cut.totals → IsSoFar configs so_far.ends.items so_far.totals) }
        ensures totals { IfOk result (λ so_far. AddUp self.totals cut.totals so_far.totals) }
        ensures kept { IfOk result (λ so_far. list_all (keeps_at_most most) cut.pieces.items ≡ true) }
        ensures limit { result ≡ Err StormFault.Limit → ⊥ }
        ensures full { result ≡ Err StormFault.JournalFull → list_all (keeps_at_most most) cut.pieces.items ≡ false }
    {
        let Cut { pieces, totals } = cut;
        if !go_on(self.ends.as_slice(), pieces.as_slice()) {
            return Err(StormFault::Mismatch);
        }
        if !keep_at_most(pieces.as_slice(), most) {
            return Err(StormFault::JournalFull);
        }
        let Some(totals) = added(&self.totals, &totals) else {
            return Err(StormFault::Mismatch);
        };
        match ends_of_pieces(alloc, pieces) {
            Ok(ends) => Ok(SoFar { ends, totals }),
            Err(_) => Err(StormFault::OutOfMemory),
        }
    }
}
