//! A value change dump (IEEE 1364, clause 18) of ports and their units, as text: declarations, times and changes.
//!
//! Promise: what is written is a dump of the variables that are declared: each change is of one of them, as wide as it,
//! and stands behind a time, and times only rise (`push_head`, `Dump::put`, `dumps_continue`).
//!
//! - `change.rt`: `Change`, the value that a variable gets; `number.rt`: the numbers that stand for words.
//! - `piece.rt`: identifiers and values; `text.rt`: the line of a change.
//! - `head.rt`: `push_head`, the declarations.
//! - `dump.rt`: `Dump`, what is declared and the last time, and `put`. `laws.rt`: parts of dumps, one behind the other.
//!
//! Where to make which change: which variables there are, and how wide they are, stands in `specs/Head.antt` and
//! `head.rt`; how a value is written in `specs/Text.antt`, `piece.rt` and `text.rt`; what a dump is in
//! `specs/Dump.antt`.
#![tactic(auto)]

mod change;
mod dump;
mod head;
mod laws;
mod number;
mod piece;
mod text;

pub use change::{Change, PortChange, UnitChange, UnitState, WindowKind};
pub use dump::{Dump, PORTS};
pub use head::push_head;
pub use laws::dumps_continue;
