//! The text of a trace: one line for each entry of a port's journal.
//!
//! Promise: a line is the entry's text as the format says (`write_entry`, `write_line`, `push_line`).
//!
//! - `line.rt`: `write_entry`, the line of an entry written into a buffer, from its end on; `write_line`, that of a
//!   receipt's; `push_line`, which appends it; and the length of the longest.
//! - `event.rt`: what happened at the port.
//! - `answer.rt`, `reply.rt`, `allocs.rt`: what the port gave for it.
//! - `pieces.rt`: numbers, codes and serial numbers.
//!
//! Where to make which change: what a line says stands in `specs/Text.antt`, a reply's words in
//! `specs/Reply.antt`, and in the function here that is proved to write it. The numbers in `requires room`
//! are how many bytes a part has at most; `MAX_LINE` is their sum.
#![tactic(auto)]

mod allocs;
mod answer;
mod event;
mod line;
mod pieces;
mod reply;

pub use line::{MAX_LINE, push_line, write_entry, write_line};
