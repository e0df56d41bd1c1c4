//! The time of each port by the lines of a trace or a log that tell of it, how many lines fall behind it, the frames
//! that are wanted of it, and where all that was heard is if all of it is before the first of them, or all of it behind
//! the last.
//!
//! Promise: the times are those of all lines, the lines that fall are counted, and it is told that all is before or
//! behind the wanted frames exactly where that is (`PortTimes::hear`, `fallen`, `outside`).
//!
//! - `frames.rt`: `Frames`, the frames that are wanted, and `Outside`, where all is that was heard.
//! - `times.rt`: `PortTimes`, the times of the ports and how many lines fell, and `PortTime`, the time of one.
//!
//! Where to make which change: what a line does to the time of its port stands in `specs/Times.antt`, what is read of a
//! line in `gp_log`. Which lines of an input are read, and what that does to the times, is said in `specs/Lines.antt`
//! for `gp_picture` and `gp_waves`.
#![tactic(auto)]

mod frames;
mod times;

pub use frames::{Frames, Outside};
pub use times::{PortTime, PortTimes};
