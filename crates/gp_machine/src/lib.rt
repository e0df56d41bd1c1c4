//! The activation machine of one port after G.984.3, clause 10: its plain types in `src/`, its states, steps
//! and runs in `specs/`, and those laws that the code of a port needs. The other laws, and those of whole runs, stand
//! in `gp_laws`.
//!
//! Promise: a step keeps soundness and licences; given the reply all else is determined (`sound_step`,
//! `one_outcome`).
//!
//! - `event.rt`: what happens at a port. `answer.rt`: what it gives for that, with its reply (`reply.rt`), of which one
//!   kind is a refusal (`refusal.rt`). `entry.rt`: what is kept of a step.
//! - `config.rt`, `admitted.rt`: what a port is configured with, and whether it is within the limits; laws of the
//!   limits, and of `==` of configurations.
//! - `one_step.rt`: laws of single steps. `equal_replies.rt`: that of `==` of rows and replies.
//!
//! Where to make which change, in `specs/`:
//! - limits of a configuration, of how many ports there may be and of what their journals keep: `Config`; a refusal's
//!   number and name: `Refusals`, and `src/refusal.rt`; a command's word: `Words`, and `src/event.rt`.
//! - what a port knows, and which numbers are free: `State`; what holds in every state: `Sound`.
//! - what may change in one go, and what each change does: `Changes`; what a line of a table says: `Responses`.
//! - the tables: `Frame`, with `Closes` for the end of a window; `Burst`, with `SearchWindow`, `RangeWindow` and
//!   `PollWindow`; `Commands`.
//! - a step, a run, and the messages that they owe: `Step`, `Run`, `Messages`.
//! - the laws here: `OneStep`, and `Comparing` and `ComparingAnswers` of `==`.
#![tactic(auto)]

mod admitted;
mod answer;
mod config;
mod entry;
mod equal_replies;
mod event;
mod one_step;
mod refusal;
mod reply;

pub use admitted::{Admitted, is_among};
pub use answer::Answer;
pub use config::{
    MAX_CYCLES, MAX_JOURNAL_LIMIT, MAX_PORTS, MAX_SEARCH_PERIOD, MAX_UNITS, PortConfig,
    compares_configs, configs_are_limited,
};
pub use entry::{Entry, Receipt};
pub use equal_replies::compares_replies;
pub use event::{Command, Event};
pub use gp_pools::{FIRST_ALLOC_ID, LAST_ALLOC_ID, MAX_QUARANTINE};
pub use gp_unit::{Allocs, Phase, Row};
pub use one_step::{
    finds_unit_with, one_outcome, refusals_change_nothing, sound_step, step_keeps_licences,
    step_sends_in_order, tells_free_numbers,
};
pub use refusal::Refusal;
pub use reply::Reply;
