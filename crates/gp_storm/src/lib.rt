//! A storm: the bursts, frames and commands of several ports at once, by threads. Each port has one feeder and one
//! reader with a ring between them; one clock has the frames of all ports served, and one operator the commands.
//!
//! Promise: what is written are the exact totals of its journals, each a run of its port, with all frames and
//! commands of the script (`run_storm`).
//!
//! - `storming.rt`: `run_storm`, from the bytes of a script to those of its totals; `run_storm_in`, which writes them
//!   in a form, `form.rt`.
//! - `plan.rt`: `Plan`, what a storm does, and `plan_of` a script. `fault.rt`: `StormFault`, why it has no totals.
//! - `feeder.rt`: what puts a port's bursts into its ring.
//! - `task.rt`: what one thread has: its worker, its end of a ring, and how its loop ended.
//! - `threads.rt`: the threads of one storm. `engine.rt`: `storm`, a chassis from its opening to its close, which keeps
//!   all that its threads were told.
//! - `rounds.rt`: `storm_in_rounds`, which runs a part of the plan at a time and cuts the journals between. `left.rt`:
//!   what of a plan is left. `so_far.rt`: where the ports stand after a round, and the totals of all rounds.
//!
//! What a thread does is a loop of `gp_workers`; another kind of thread is one more loop there, and a line in `serve`
//! of `threads.rt` and in `IsServed` of `specs/Serving.antt`. What is planned for whom stands in `specs/Plan.antt`,
//! what the threads serve and whose fault is told in `specs/Serving.antt`, what is written in `specs/Totals.antt`, and
//! how a storm may end in `specs/Outcome.antt`; a further total is a line there and in `storming.rt`.
#![tactic(auto)]

mod engine;
mod fault;
mod feeder;
mod form;
mod left;
mod plan;
mod rounds;
mod so_far;
mod storming;
mod task;
mod threads;

pub use engine::storm;
pub use fault::StormFault;
pub use form::TotalsForm;
pub use plan::{Plan, plan_of};
pub use storming::{run_storm, run_storm_in};
