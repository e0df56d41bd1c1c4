//! Counts of what was heard of each unit on one port's fibre, told at the end as text or as JSON.
//!
//! Promise: what is counted is exactly what `specs/Census.antt` says of what was heard, and the lines that are told are
//! those of `specs/Text.antt` (`Census::note`, `push_census`).
//!
//! - `sighting.rt`: `Sighting` and `PortCounts`, what is counted of a unit and of the port, and `UnitEvent`, what
//!   happens to a unit. `units.rt`: the map from serial numbers to sightings.
//! - `noting.rt`: what a message changes in this map. `census.rt`: `Census`, and what is counted of what is heard.
//! - `told.rt`: what is told of a unit besides its counts: its state, its ONU-ID, its delay. `pieces.rt`: names,
//!   numbers, times and lists. `text.rt`, `json.rt`: the lines in each form. `pushing.rt`: `push_census`, and
//!   `push_front`, what is known of one unit.
//!
//! Where to make which change: a new count is a field of `Sighting`, an event or a line of one in `specs/Census.antt`,
//! and a piece of both forms in `specs/Text.antt`.
#![tactic(auto)]

mod census;
mod json;
mod noting;
mod pieces;
mod pushing;
mod sighting;
mod text;
mod told;
mod units;

pub use census::Census;
pub use pushing::{CensusForm, push_census, push_front};
pub use sighting::{PortCounts, Sighting};
