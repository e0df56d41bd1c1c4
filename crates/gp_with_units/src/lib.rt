//! Plays, traces that are told, drives and verifications with what became of their ports and units behind them, or in
//! their place.
//!
//! Promise: what is written is what is written without it, told as is wanted, and then the lines that tell of ports and
//! units; after a failed write a prefix of that, and the answer says so (`play_with_units`, `explain_with_units`,
//! `verify_with_units`; `play_for_summary`, `explain_for_summary`). Of a drive these lines are answered, and not written
//! (`drive_with_units`). `tell_play` and `tell_drive` promise it with nothing behind.
//!
//! - `playing.rt`: a script that is played. `explaining.rt`: a trace that is told again; `ToldTrace`, what is found of
//!   it. `driving.rt`: a script that is driven. `verifying.rt`: a trace that is verified. `telling.rt`: a script that is
//!   played or driven with nothing behind it.
//! - `behind.rt`: a text that is written behind what a writer holds, and what a teller leaves.
//!
//! Where to make which change: what is told of ports and units is `gp_summary`'s and `gp_summed`'s, how a trace is told
//! `gp_tell`'s; what is written behind a play, a trace or a drive, and what is answered then, stands in `specs/` in the
//! file of its name.
#![tactic(auto)]

mod behind;
mod driving;
mod explaining;
mod playing;
mod telling;
mod verifying;

pub use behind::is_plain;
pub use driving::{DriveWritten, drive_with_units};
pub use explaining::{ToldTrace, TraceWritten, explain_for_summary, explain_with_units};
pub use playing::{PlayWritten, play_for_summary, play_with_units};
pub use telling::{tell_drive, tell_play};
pub use verifying::verify_with_units;
