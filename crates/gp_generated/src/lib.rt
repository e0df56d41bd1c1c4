//! That the events of a generated script are events which `gp_script` reads: laws, above both.
//!
//! Promise: each event of a generated script is within the ranges of its form, and its table, as keys and values stand
//! in its text, is read as what is meant (`generated_events_are_read`), as that of any event within these ranges is
//! (`events_are_read`).
//!
//! - `laws.rt`: both laws.
//!
//! Where to make which change: what is meant by an event, and when it is within its ranges, stands in
//! `specs/Meant.antt`.
#![tactic(auto)]

mod laws;

pub use laws::{events_are_read, generated_events_are_read};
