//! The chassis for C, C++, Go and Python: a static library with the header `include/wagpisud.h`.
//!
//! Promise: each call is one call of `gp_chassis::ChassisCore`, or a refusal that changes nothing; what is written for
//! the caller are the numbers of what that call gave (`wp_frame`, `wp_burst`, `wp_command`, ..). A handle that is
//! closed answers so. `docs/PROOFS.md` says what the caller must uphold.
//!
//! - `exports.rt`: the functions that C calls. `calls.rt`: what each asks of its handle.
//! - `settings.rt`, `event.rt`, `command.rt`, `answer.rt`, `row.rt`, `counts.rt`, `turn.rt`, `fault.rt`: what crosses,
//!   as plain numbers. `kept.rt`: an entry that a journal keeps.
//! - `handle.rt`: `Handle`, what C holds. `slot.rt`: the same at a ledger. `loose.rt`: a box as its pointer.
//! - `engine.rt`: what stands behind a handle. `op.rt`: what is asked of it, and what it answers.
//!
//! Where to make which change: another call is a variant of `Op` and of `Out`, an arm of `serve_slot`, a line of
//! `Serves` in `specs/Serves.antt`, and an export; no proof of `handle.rt`, `slot.rt` or `loose.rt` changes. Another
//! number is a line of `specs/Answers.antt`, `Rows.antt`, `Commands.antt` or `Faults.antt`, and of the header.
#![tactic(auto)]

mod answer;
mod calls;
mod command;
mod counts;
mod engine;
mod event;
mod exports;
mod fault;
mod handle;
mod kept;
mod loose;
mod op;
mod row;
mod settings;
mod slot;
mod turn;

pub use answer::AnswerNumbers;
pub use counts::PortCounts;
pub use engine::Engine;
pub use event::EventNumbers;
pub use exports::{
    wp_apply, wp_burst, wp_close, wp_command, wp_count, wp_cut, wp_entry, wp_frame, wp_free,
    wp_line, wp_open, wp_show, wp_text, wp_turn,
};
pub use fault::Fault;
pub use handle::Handle;
pub use kept::KeptEntry;
pub use op::{Op, Out};
pub use row::{AllocNumbers, RowNumbers};
pub use settings::{ChassisSettings, PortSettings, SerialNumber};
pub use turn::TurnNumbers;
