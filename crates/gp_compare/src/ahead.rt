//! A source of which a block is read ahead.
ghost use Rattle.std.specs.Prelude.{◌≡◌, ◌<◌, ◌≤◌, ◌+◌, [], IfErr, IfOk, OnOk, drop, length};
ghost use Rattle.gp_compare.specs.Ahead.{Fills};
ghost use Rattle.gp_compare.specs.Fault.{IsStopped};
ghost use Rattle.gp_stream.specs.Source.{Reads};

use crate::fault::CompareFault;
use gp_stream::Source;
use std::alloc::{AllocError, Global};
use std::io;
use std::io::Read;
use std::marker::Model;

/// How many octets are asked for in one read.
const BLOCK_BYTES: usize = 65_536;

/// A source of which a block is read ahead. Contracts see the source, and the octets that were read and are not passed.
#[derive(Drop)]
pub(crate) struct Ahead<R: Read> {
    source: Source<R>,
    block: Vec<u8>,
    from: usize,
    until: usize,
}

impl<R: Read> Model for Ahead<R> {
    ghost use Rattle.std.specs.Prelude.{◌<◌, ◌≤◌, slice_range, vec_len};
    ghost use Rattle.gp_compare.specs.Ahead.{AheadState};

    ghost Value = { AheadState R };

    ghost view = { λ s. record { source = s.source; rest = slice_range s.block.items s.from s.until } };

    ghost invariant = { λ s. (s.from ≤ s.until) × (s.until ≤ vec_len s.block) × (0 < vec_len s.block) };
}

/// Makes one read, into a block.
fn read_block<R: Read>(source: &mut Source<R>, block: &mut Vec<u8>) -> io::Result<usize>
    requires { 0 < source.old.left }
    ensures reads { Reads source.old source.new block.new.items result }
    ensures room { length block.new.items ≡ length block.old.items }
{
    source.read(block.as_mut_slice())
}

impl<R: Read> Ahead<R> {
    /// Reads a source ahead, of which nothing is read yet. Takes memory for a block.
    pub fn new(alloc: Global, source: Source<R>) -> Result<Self, AllocError>
    where
        R: Drop,
        ensures { IfOk result (λ ahead. ahead ≡ record { source = source; rest = [] }) }
    {
        let block = vec![in alloc; 0u8; BLOCK_BYTES]?;
        Ok(Ahead {
            source,
            block,
            from: 0,
            until: 0,
        })
    }

    /// Gives the source back.
    pub fn into_source(self) -> Source<R>
        ensures { result ≡ self.source }
    {
        let Ahead { source, .. } = self;
        source
    }

    /// Gives the octets that were read and are not passed.
    pub fn rest(&self) -> &[u8]
        ensures { result.now ≡ self.now.rest }
    {
        &self.block[self.from..self.until]
    }

    /// Passes the first octets of the rest.
    pub fn pass(&mut self, count: usize)
        requires { count ≤ length self.old.rest }
        ensures rest { self.new.rest ≡ drop count self.old.rest }
        ensures source { self.new.source ≡ self.old.source }
    {
        self.from += count;
    }

    /// Reads a block where all that was read is passed. If nothing is left then, the source is at its end.
    ///
    /// Fails where a read fails, or where none is left.
    pub fn fill(&mut self) -> Result<(), CompareFault>
        ensures fills { Fills self.old self.new result }
        ensures kept { 0 < length self.old.rest → self.new ≡ self.old }
        ensures counted { self.old.rest ≡ [] → OnOk result (self.new.source.left + 1 ≡ self.old.source.left) }
        ensures err { IfErr result (λ fault. (fault ≡ CompareFault.Read) × IsStopped self.new.source) }
    {
        if self.from < self.until {
            return Ok(());
        }
        if !self.source.can_read() {
            return Err(CompareFault::Read);
        }
        match read_block(&mut self.source, &mut self.block) {
            Ok(count) => {
                self.from = 0;
                self.until = count;
                Ok(())
            }
            Err(_) => Err(CompareFault::Read),
        }
    }
}
