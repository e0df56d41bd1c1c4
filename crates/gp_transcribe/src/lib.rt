//! Writes a trace again as a log of messages, line by line as it comes.
//!
//! Promise: what a line of a trace says on the fibre is written as lines of a log at its port's time, and these are
//! read back as just that (`transcribe_trace`, `written_lines_are_read`).
//!
//! - `line.rt`: one line of a trace. `traced.rt`: what it says; `frames.rt`: the frames of its port; `push.rt`: its
//!   lines in a log.
//! - `transcriber.rt`: `Transcriber`, which is given the lines of a trace one after another; `serving.rt`: as what
//!   serves lines.
//! - `running.rt`: `transcribe_trace`, from the bytes of a trace to its log.
//! - `laws.rt`: the log says what the trace says.
//!
//! Where to make which change: what a line of a trace is in a log stands in `specs/Entries.antt`, a line of a log in
//! `gp_log`, what is written of which line in `specs/Transcribing.antt`, and how it may end in `specs/Outcome.antt`.
//! `specs/Back.antt` has what the laws say.
#![tactic(auto)]

mod frames;
mod laws;
mod line;
mod push;
mod running;
mod serving;
mod traced;
mod transcriber;

pub use laws::written_lines_are_read;
pub use running::transcribe_trace;
pub use transcriber::Transcriber;
