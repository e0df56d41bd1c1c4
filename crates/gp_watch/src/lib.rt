//! What an observer of one port's fibre knows, kept in tables, and which rules are broken by what it hears.
//!
//! Promise: what is known is exactly what `gp_observer` defines, and so is which rules are broken, in their order, and
//! which are judged (`PortWatch::hear`, `broken`, `judges`). A message takes no scan of a table and, but for a serial
//! number that is new, no memory; only a message to all units goes through the tables.
//!
//! - `heard.rt`: what is heard, and what it is judged by. `fault.rt`: why it can't be noted.
//! - `watch.rt`: `PortWatch`, what is asked of it, and each change. `note.rt`: which changes a message makes (`hear`).
//! - `rules.rt`, `unit_rules.rt`: which rules are broken, of the terminal's side and of a unit's (`broken`).
//!   `broken.rt`: `BrokenRules`, those that are, in their order. `judged.rt`: which rules are judged (`judges`).
//! - `tables.rt`: what is known by number. `owners.rt`: which ONU-ID each Alloc-ID belongs to, by the age of the
//!   ONU-ID. `answers.rt`: the delays of one unit's answers. `index.rt`: the serial numbers that are followed.
//!
//! Where to make which change: what is known and which rules there are stands in `gp_observer`; a new rule is a method
//! of `rules.rt` or `unit_rules.rt` and a line of the list there, and one of `judged.rt`. How it is kept is free under
//! unchanged clauses.
#![tactic(auto)]

mod answers;
mod broken;
mod fault;
mod heard;
mod index;
mod judged;
mod note;
mod owners;
mod rules;
mod tables;
mod unit_rules;
mod watch;

pub use broken::BrokenRules;
pub use fault::WatchFault;
pub use heard::{Heard, Settings};
pub use watch::{MOST_FOLLOWED, PortWatch};
