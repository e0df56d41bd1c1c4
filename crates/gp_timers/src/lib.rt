//! Timers: a finite map from the name of a timer to the frame in which it is due.
//!
//! Promise: the timer that is due first is told, and only it (`Wheel::due`).
//!
//! - `wheel.rt`: `Wheel`, the map. `specs/Timers.antt` is what its callers see: which timer is due first, and when
//!   none is.
//! - `queue.rt`: the timers by name, and the indexes that find the first. `specs/Queues.antt`: what they keep.
//! - `name_set.rt`: the names that are due in one near frame, as bits. `specs/Names.antt`: what their span keeps.
//! - `tournament.rt`: the tree in an array that finds the first of all others. `specs/Tournament.antt`: what it keeps.
//! - `proofs/Places.antt`: the places of names make the map. `Orders.antt`: the indexes keep to it. `Words.antt`: sets
//!   of names in words. `Nearest.antt`, `Winners.antt` and `Firsts.antt`: what is found is the first. `Begins.antt`: a
//!   new queue.
//!
//! Another representation changes all but `wheel.rt` and `Timers.antt`, and no clause of `Wheel`.
#![tactic(auto)]

mod name_set;
mod queue;
mod tournament;
mod wheel;

pub use wheel::{TimerFault, Wheel};
