//! A line of a log of messages, or of a trace, read as what was said on the fibre; and lines of a log, written.
//!
//! Promise: each line is read as what it says, or its first fault is told, and in one way only; what is written here,
//! and what `gp_trace` writes, is read back (`read_line`, `push_entry`, the laws).
//!
//! - `line.rt`: `read_line`, and `LogLine`, what a line says. `said.rt`: `Said`, what was said on the fibre.
//! - `usual.rt`: a line in its usual form, read from the left in one pass: its first fields and the word behind them
//!   tell which kind of line it is. `leading.rt`: what a text begins with.
//! - `entry.rt`: any other line of a log, by its fields; `word.rt`: the word that tells what it is of; `says.rt`: what
//!   stands behind that. `traced.rt`: what a line of a trace says.
//! - `fields.rt`: what stands between separators, and numbers. `code.rt`: codes, as people write them. `time.rt`:
//!   times.
//! - `push.rt`: `push_entry`, which writes a line of a log.
//! - `laws.rt`: there is one reading, and no line is of both kinds; lines that are written, of a log and of a trace,
//!   are read back.
//! - `fault.rt`: what is wrong with a line.
//!
//! Where to make which change: which line is of which kind stands in `specs/Line.antt`, the order of a line's fields in
//! `specs/Log.antt`, what stands behind its word in `specs/Says.antt`, what a trace says in `specs/Trace.antt`. What
//! parts fields stands in `specs/Fields.antt`, how a code may be written in `specs/Code.antt`, and a time in
//! `specs/Time.antt`. How usual forms are read stands in `specs/Usual.antt`. The text that is written stands in
//! `specs/Text.antt`; `specs/Told.antt` says what an entry of the machine says.
#![tactic(auto)]

mod code;
mod entry;
mod fault;
mod fields;
mod laws;
mod leading;
mod line;
mod push;
mod said;
mod says;
mod time;
mod traced;
mod usual;
mod word;

pub use fault::LogFault;
pub use laws::{
    entry_can_be_written, lines_are_of_one_kind, log_lines_are_read, one_reading,
    traced_lines_are_told,
};
pub use line::{LogLine, read_line, text_of};
pub use push::{MAX_ENTRY, push_entry};
pub use said::Said;
pub use time::{FRAME_NANOSECONDS, LAST_FRAME};
