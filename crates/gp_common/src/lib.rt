//! The common state of a port, and what a port does in a frame in which nothing is under way
//! (this profile's own rule; the states are those of G.984.3, clause 10).
//!
//! Promise: the next common state and what a port does are the decision table's (`decide`).
//!
//! - `common.rt`: `Common`, the common states.
//! - `decision.rt`: `Decision`, and `decide` with its two halves. `specs/Decision.antt` is the table.
//! - `laws.rt`: two laws, as functions with empty bodies. `specs/Laws.antt`: what holds of every decision and of every
//!   run of them. `specs/States.antt`: questions about the common state.
//!
//! A rule is changed in `decision_of` and `decide`, then in the laws.
#![tactic(auto)]

mod common;
mod decision;
mod laws;

pub use common::Common;
pub use decision::{Decision, decide};
pub use laws::{each_decision_has_its_reason, opens_each_search_window};
