//! What holds of the activation machine of a port, in every step and in every run (G.984.3, clause 10): laws
//! over the definitions of `gp_machine`. Each law is the contract of a public function whose body does
//! nothing, or calls a law that it follows from. The port does without this crate: what its bodies need of
//! the machine is a law of `gp_machine`. The chassis, the workers, the world and the replay rest on laws of
//! this crate.
//!
//! Promise: what holds of every run: numbers, licences, copies, alarms, quarantine (`every_state_is_sound` and the
//! other laws).
//!
//! - `steps.rt`: the choice that a port has, and that it has an answer to each event.
//! - `causes.rt`: why a step refuses.
//! - `runs.rt`: the parts of a run, and what stays the same along it.
//! - `numbers.rt`: who holds which ONU-ID and Alloc-ID.
//! - `messages.rt`: what is sent along a run, and what is still owed.
//! - `removals.rt`: with which messages a unit loses its ONU-ID.
//! - `alarms.rt`: which alarms come with the removal of their unit.
//! - `quarantine.rt`: for how long an ONU-ID rests that was freed.
//! - `polls.rt`: what is counted of poll windows, and after which of them LOS, LOAM and LOA are raised.
//!
//! The statements stand in `specs/`, in the file of the same name. A changed table line of `gp_machine` is met
//! in `proofs/Orderly.antt` (bursts and commands), `OrderlyFrames.antt` (frames) and `Wants.antt` (refusals),
//! which go through all tables once, and in `PollAnswers.antt`, which does so for what is counted of poll
//! windows; a new kind of change there and in `Losing.antt`, `Resting.antt` and `FreeAgain.antt`.
#![tactic(auto)]

mod alarms;
mod causes;
mod messages;
mod numbers;
mod polls;
mod quarantine;
mod removals;
mod runs;
mod steps;

pub use alarms::alarms_remove_units;
pub use causes::{finds_who_asks, first_cause_refuses, refuses_for_want};
pub use messages::{sends_each_message_three_times, sends_first_owed, sends_only_proper_messages};
pub use numbers::{disabled_hold_none, no_shared_numbers};
pub use polls::{alarms_follow_poll_windows, counts_poll_windows};
pub use quarantine::{freed_onu_ids_are_free_again, freed_onu_ids_rest};
pub use removals::{assigned_stay_or_are_told, each_step_adds_messages};
pub use runs::{
    every_state_is_sound, keeps_configuration, runs_end_alike, runs_in_parts, runs_keep_licences,
};
pub use steps::{every_event_has_step, may_pick_any_free};
