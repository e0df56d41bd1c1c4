//! What becomes of the units of a fibre that loses nothing: they are activated, all of them, within so many frames.
//!
//! Promise: on a fibre that loses nothing every unit operates within `4 * cycles + 9 * n + 4` frames of a search
//! (`everybody_is_served`).
//!
//! - `laws.rt`: the law; the statement stands in `specs/Served.antt`.
//!
//! Where to make which change: the proof goes frame by frame. What holds between two frames, in each phase, and the
//! measure that falls stand in `proofs/Everybody.antt`, by `proofs/LinkedUnits.antt`, which ties a unit to its row. A
//! changed table line of `gp_machine` is met in `proofs/Ports.antt`, one of the unit table in `proofs/Hearing.antt`,
//! another order of a frame's parts in `proofs/Frames.antt`. No other crate stands on this one.
#![tactic(auto)]

mod laws;

pub use laws::everybody_is_served;
