//! Up to sixteen ports with one stock of licences, on one thread, and the laws of whatever its actors do.
//!
//! Promise: each call is its move of the chassis, or a refusal that changes nothing; licences are exact
//! (`ChassisCore::apply`, `take`, `step`, `give`, `cut`, `close`).
//!
//! - `chassis_core.rt`: `ChassisCore`, the ports, the book of the licences and the hands of 64 actors: take, step and
//!   give, `apply` for all three, and `cut`. `apply_in_place` leaves the entry in the journal, where `last_entry` lends
//!   it.
//! - `desk.rt`: `PortDesk`, a port with its journal: `serve` is the one change that a port makes, here and under a
//!   port's lock.
//! - `config.rt`: `ChassisConfig` and its limits; `admitted_once.rt`, private, whether a serial number is admitted
//!   twice.
//! - `hands.rt`, private: what is in the hands of the actors, and how hands and desks end. `fault.rt`: why a call is
//!   refused.
//! - `world.rt`: the laws of every run, whoever moves and in whatever order.
//!
//! `specs/World.antt` is what actors do, without journals; `specs/Desk.antt` what a desk is and what serving and
//! cutting leave of it; `specs/Core.antt` the chassis, which is a `World` whose ports are desks; `specs/Limits.antt`
//! the limits.
//!
//! Where to make which change: what a port does is `gp_machine`; what an entry keeps, and what a journal tells,
//! `gp_journal`; another order of faults, the calls of `ChassisCore`; another move of an actor, `Move` and
//! `ChassisStep`.
#![tactic(auto)]

mod admitted_once;
mod chassis_core;
mod config;
mod desk;
mod fault;
mod hands;
mod world;

pub use chassis_core::ChassisCore;
pub use config::ChassisConfig;
pub use desk::PortDesk;
pub use fault::{ApplyFault, CoreFault};
pub use gp_machine::{MAX_JOURNAL_LIMIT, MAX_PORTS};
pub use hands::ACTORS;
pub use world::{balance_lasts, every_run_holds, ports_replay, soundness_lasts};
