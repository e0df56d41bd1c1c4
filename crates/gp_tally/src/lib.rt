//! Counts of what the lines of a trace tell of each port and of its units, while the trace goes by.
//!
//! Promise: what is counted is exactly what `specs/Tally.antt` says of what each line tells, in whatever pieces the
//! lines come, and what is handed on is what was handed in (`Tallies::count_line`, `Counter::ports`,
//! `Counting::passed_on`).
//!
//! - `told.rt`: `Told`, what a line tells that is counted; `answered.rt`: what the text of an answer says; `alarm.rt`:
//!   the alarm at its end, and the kind of alarm of a line, for pictures and dumps; `reading.rt`: a line, read.
//! - `counts.rt`: `PortCounts` and `UnitCounts`, what is counted of a port and of a unit, and `UnitEvent`, what happens
//!   to a unit. `units.rt`: the map from serial numbers to these counts.
//! - `port_tally.rt`: `PortTally`, a port with its units; `hearing.rt`: what a burst changes of the units.
//!   `tallies.rt`: `Tallies`, several ports.
//! - `counter.rt`: `Counter`, which counts the lines of a text that comes in any pieces. `counting.rt`: `Counting`, a
//!   writer that passes on what it is handed and counts its lines. `began.rt`: what that writer began with.
//!   `nowhere.rt`: `Nowhere`, a writer that keeps nothing.
//! - `laws.rt`: laws: the line of an entry tells the entry, so what is counted of a trace is counted of its entries.
//!
//! Where to make which change: a new count is a field of `PortCounts` or `UnitCounts` and a line of `specs/Tally.antt`;
//! what a line tells stands in `specs/Told.antt`.
#![tactic(auto)]

mod alarm;
mod answered;
mod began;
mod counter;
mod counting;
mod counts;
mod hearing;
mod laws;
mod nowhere;
mod port_tally;
mod reading;
mod tallies;
mod told;
mod units;

pub use alarm::kind_told;
pub use began::Began;
pub use counter::Counter;
pub use counting::Counting;
pub use counts::{ALARM_KINDS, PortCounts, REFUSAL_NUMBERS, UnitCounts, kind_place};
pub use laws::{entry_is_within_limits, lines_tell_entries, traces_count_entries};
pub use nowhere::Nowhere;
pub use port_tally::PortTally;
pub use tallies::Tallies;
pub use told::{Answered, Happened, Told};
pub use units::Units;
