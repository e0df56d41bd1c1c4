//! What a trace says of an entry is told as JSON by its fields, each event, reply, refusal, message, grant and alarm.
//!
//! Promise: the object of the line of an entry has its fields, and is never `{"line":..}` (`entry_is_told`). It holds
//! of each entry that `gp_trace` writes, under whatever mask its codes are told.
//!
//! - `entry.rt`: `entry_is_told`. `held.rt`: what the types of an entry hold, by which its parts are told.
//!
//! Where to make which change: a new word of `gp_trace` needs its place among the slots of `gp_json`, and its case in
//! the proof, in `proofs/EventLemmas.antt` or `proofs/AnswerLemmas.antt`.
#![tactic(auto)]

mod entry;
mod held;

pub use entry::entry_is_told;
