//! A fibre: one port, its licences, and the simulated units that it reaches. Copies, grants and bursts reach them in
//! any order, late, twice or never.
//!
//! Promise: each step of a fibre is its case, and a run of frames is its schedule; what a unit has it was sent
//! (`World::step`, `run`, `units_are_told`).
//!
//! - `world.rt`: `World`, with its steps (`world_step.rt`), its faults (`fault.rt`) and what it begins with
//!   (`unit_plan.rt`).
//! - `running.rt`: the parts of a frame of `World::run` and `run_into`, which may lose copies and bursts:
//!   `loss_plan.rt` lists them, `losses.rt` and `lost_numbers.rt` look them up, in order where that saves time.
//! - `fibre.rt`: the port, the book of its licences, the units, and all that was sent (`sent_burst.rt`) and not
//!   forgotten (`sent.rt`).
//! - `unit_store.rt`, `stored_unit.rt`: the units, each brought up to date only where it has to be.
//! - `asked_units.rt`, `asked_by.rt`: the index of the units that each grant asks, and so of those with each ONU-ID.
//! - `flights.rt`, `flight.rt`: the bursts that are to come in a run.
//! - `laws.rt`: what holds of every run: the messages that each unit was sent, and with which one it loses its ONU-ID;
//!   and that what a world forgets changes nothing of a run.
//!
//! Where to make which change: what a step may do stands in `specs/Step.antt`, the order of a frame of a run in
//! `specs/Schedule.antt`, what a world begins with in `specs/World.antt`; another representation of the units, in
//! `unit_store.rt` and `specs/UnitStore.antt`; another index, in `asked_units.rt` and `specs/AskedUnits.antt`.
#![tactic(auto)]

mod asked_by;
mod asked_units;
mod fault;
mod fibre;
mod flight;
mod flights;
mod laws;
mod loss_plan;
mod losses;
mod lost_numbers;
mod running;
mod sent;
mod sent_burst;
mod stored_unit;
mod unit_plan;
mod unit_store;
mod world;
mod world_step;

pub use fault::WorldFault;
pub use gp_onu::{MAX_DELAY, MAX_RANDOM_DELAY, MAX_SIMULATED_UNITS};
pub use laws::{
    assigned_units_stay_or_are_told, forgetting_changes_nothing, frames_are_runs,
    frames_run_in_parts, keeps_licences, lost_units_are_told, port_runs, runs_in_parts,
    units_are_told,
};
pub use loss_plan::LossPlan;
pub use losses::Losses;
pub use lost_numbers::LostNumbers;
pub use sent::MAX_FORGOTTEN;
pub use sent_burst::SentBurst;
pub use unit_plan::UnitPlan;
pub use world::{MAX_FRAMES, World};
pub use world_step::WorldStep;
