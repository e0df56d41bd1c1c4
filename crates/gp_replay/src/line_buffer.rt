//! The memory in which a line of the trace is built: room for the longest, taken once.
ghost use Rattle.std.specs.Prelude.{◌≡◌, [], IfOk};
ghost use Rattle.std.specs.Option.{ForSome};
ghost use Rattle.gp_ploam.specs.Down.{IsProperDown};
ghost use Rattle.gp_trace.specs.Text.{line_of};

use gp_machine::Entry;
use gp_ploam::Mask;
use gp_trace::MAX_LINE;
use std::alloc::{AllocError, Global};
use std::marker::Model;

/// Where the lines of a trace are built, one at a time. It has room for the longest, so a line takes no
/// memory. Contracts see the line that was built last.
#[derive(Drop)]
pub struct LineBuffer {
    /// As many bytes as the longest line has.
    bytes: Vec<u8>,
    /// Where the line begins that was built last: it ends with the bytes.
    start: usize,
}

impl Model for LineBuffer {
    ghost use Rattle.std.specs.Prelude.{ℕ, List, ◌≤◌, drop, vec_len};
    ghost use Rattle.gp_trace.specs.declared.line.TheConstants.{MAX_LINE};

    ghost Value = { List ℕ };

    ghost view = { λ b. drop b.start b.bytes.items };

    ghost invariant = { λ b. (MAX_LINE ≤ vec_len b.bytes) × (b.start ≤ vec_len b.bytes) };
}

impl LineBuffer {
    /// Takes the memory for the longest line.
    pub fn new(alloc: Global) -> Result<LineBuffer, AllocError>
        ensures { IfOk result (λ buffer. buffer ≡ []) }
    {
        let bytes = vec![in alloc; 0; MAX_LINE]?;
        let start = bytes.len();
        Ok(LineBuffer { bytes, start })
    }

    /// Builds the line of an entry that has this number on this port.
    pub fn build_entry(&mut self, mask: Mask, port: u8, number: u64, entry: &Entry)
        requires { ForSome entry.now.answer.sent IsProperDown }
        ensures { self.new ≡ line_of mask (record { port = port; number = number; entry = entry.now }) }
    {
        self.start = gp_trace::write_entry(&mut self.bytes, mask, port, number, entry);
    }

    /// Gives the line that was built last.
    pub fn as_bytes(&self) -> &[u8]
        ensures { result.now ≡ self.now }
    {
        &self.bytes[self.start..]
    }
}
