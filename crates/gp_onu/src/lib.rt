//! A simulated unit: the states O1 to O7 of an ONU (G.984.3, clause 10), and what it hears and answers.
//!
//! Promise: each input of a unit is a line of the unit table, or changes nothing (`Unit::hear`, `grant`, `frame`).
//!
//! - `state.rt`: `State`, the public names of the states; `specs/State.antt` has the printed ones.
//! - `stage.rt`: a state with exactly what the unit has in it. `specs/Stage.antt` reads it.
//! - `unit.rt`: `Unit`, one small method for each message and each grant. `specs/Table.antt` is the unit table;
//!   `specs/Frames.antt` has many frames, the count to the end of a state, and the limits that every unit keeps.
//! - `status.rt`: `UnitStatus`, what a unit is, as it is shown. `specs/Status.antt` reads it off.
//! - `laws.rt`: the laws that a code heard twice is as one heard once, and that a unit has only what it heard
//!   (`specs/Told.antt`).
//! - `specs/Noticing.antt`: which messages and grants a unit surely passes over.
//! - `limits.rt`, `specs/Limits.antt`: how many simulated units there may be, and how late each may answer; `gp_fibre`
//!   and `gp_script` hold them to it.
//!
//! A new rule is a line of `unit_table` and a method; another limit is a constant of `limits.rt` and a number of
//! `specs/Limits.antt`.
#![tactic(auto)]

mod laws;
mod limits;
mod stage;
mod state;
mod status;
mod unit;

pub use laws::{heard_twice, knows_what_it_hears};
pub use limits::{
    FRAME_BIT_TIMES, MAX_DELAY, MAX_RANDOM_DELAY, MAX_SIMULATED_UNITS, units_are_limited,
};
pub use state::State;
pub use status::UnitStatus;
pub use unit::Unit;
