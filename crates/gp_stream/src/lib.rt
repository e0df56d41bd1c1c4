//! Reads a whole input within bounds, and writes an output in large pieces, up to the first fault and no further.
//!
//! Promise: all of the input was read, or why not; what was written is what was handed in, or after a fault a prefix
//! of it (`read_all`, `Sink::put`, `finish`).
//!
//! - `source.rt`: `Source`, a reader that counts its reads, which are bounded or endless, and remembers whether one
//!   failed.
//! - `reading.rt`: `read_all`, which reads a source to its end, and the faults of reading.
//! - `watched.rt`: a writer that remembers whether a write or a flush failed.
//! - `sink.rt`: `Sink`, which gathers bytes, hands them on in large pieces and flushes behind each.
//! - `taken.rt`: `Taken`, the octets that a writer took, which only proofs see.
//!
//! Where to make which change: the bounds of bytes and reads are numbers in `specs/Source.antt`, which `read_all` and
//! `Source::new` are held to; `GATHERED_BYTES` stands in `sink.rt`. What counts as a failed read is decided in
//! `source.rt`, what counts as a failed write in `watched.rt`: a write that fails, a write that takes nothing, and a
//! flush that fails. What a call does to a sink or a source is one relation: `Puts`, `Finishes` and `WritesWhole` in
//! `specs/Sink.antt`, `Reads` and `ReadsAll` in `specs/Source.antt`.
#![tactic(auto)]

mod reading;
mod sink;
mod source;
mod taken;
mod watched;

pub use reading::{MAX_BYTES, SourceFault, read_all};
pub use sink::{GATHERED_BYTES, Sink, WriteStopped};
pub use source::{MAX_READS, Source};
pub use taken::Taken;
