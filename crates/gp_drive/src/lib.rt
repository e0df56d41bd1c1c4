//! A line terminal that one talks to: each line of an input asks for something, and is answered at once.
//!
//! Promise: each line is answered by the trace lines of what it asks for, by what the simulated unit is that it asks to
//! be shown, or by an error, and all of them together are a run (`run_drive`, `drives_are_runs`); if that is wanted,
//! each answer ends by telling so, and light that comes or goes is told (`run_drive_in`).
//!
//! - `driving.rt`: `drive_script`, from a script that was read and an input of lines to the answers, and `run_drive`,
//!   from the bytes of a script; `drive_chassis`, `drive_fibre`, which give what was driven on too.
//! - `driver.rt`: `Driver`, which answers one line after another on a player, as what serves lines.
//!   `driven.rt`: how many lines there were. `manner.rt`: in what manner they are answered.
//! - `turn.rt`: plays what a line asks for. `shown.rt`: what is told of a simulated unit and of light that comes or
//!   goes there. `ending.rt`: what ends an answer.
//! - `fault.rt`: why a line is answered by an error, and why a drive ends early. `laws.rt`: what every drive comes to.
//!
//! Where to make which change: which lines there are is `gp_lines`'; what is played of them stands in
//! `specs/Turns.antt`, what is told of a unit in `specs/Shown.antt`, what is said to them in `specs/Drive.antt`, how a
//! drive may end in `specs/Outcome.antt`, and what it comes to in `specs/Runs.antt`.
#![tactic(auto)]

mod driven;
mod driver;
mod driving;
mod ending;
mod fault;
mod laws;
mod manner;
mod shown;
mod turn;

pub use driven::{Driven, Drove};
pub use driver::{Driver, MOST_TURNS};
pub use driving::{drive_chassis, drive_fibre, drive_script, run_drive, run_drive_in};
pub use fault::{DriveFault, TurnFault};
pub use laws::drives_are_runs;
pub use manner::DriveManner;
