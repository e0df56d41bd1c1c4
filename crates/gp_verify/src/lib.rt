//! Whether a text is the trace of some run of the machine, with any free ONU-IDs and Alloc-IDs.
//!
//! Promise: Ok exactly where the text read is the trace of a run; else its first line that can't be is told
//! (`verify_script`, `Verifier`).
//!
//! - `checking.rt`: `open_verify`, the chassis of a script before the first line; `verify_script`, from the bytes of a
//!   script and of a text to whether it is a trace of the script's chassis; `verify_told`, the same, with all that is
//!   told of it.
//! - `running.rt`: `run_verify`, from the bytes of a text to whether it is a trace.
//! - `verifier.rt`: `Verifier`, which is given the lines of a text one after another; `following.rt`: as what serves
//!   lines.
//! - `judging.rt`: takes the turn that a line tells of, and tells whether the line is that turn's.
//! - `laws.rt`: what lines and the whole text have to do with each other.
//! - `report.rt`: what is told of the line that can't be, as lines; `object.rt`: the same as a JSON object.
//! - `ending.rt`: what is told when it has ended.
//! - `typed.rt`: what the types of a configuration say of its fields.
//! - `verdict.rt`: what is said of a line. `fault.rt`: why a line was not judged. `outcome.rt`: why a text was not
//!   found to be a trace of a run.
//!
//! Where to make which change: what it means that a text is a trace stands in `specs/Tells.antt`, what a verdict means
//! in `specs/Verdicts.antt`, how a verification may end in `specs/Outcome.antt`, and what is told of the line that
//! can't be in `specs/Report.antt`, its object in `specs/Object.antt`, and what is told at the end in
//! `specs/Ending.antt`.
#![tactic(auto)]

mod checking;
mod ending;
mod fault;
mod following;
mod judging;
mod laws;
mod object;
mod outcome;
mod report;
mod running;
mod typed;
mod verdict;
mod verifier;

pub use checking::{open_verify, verify_script, verify_told};
pub use ending::{tell_end, wanted_lines, was_read};
pub use fault::LineRefusal;
pub use laws::traces_are_lines;
pub use outcome::{CheckFault, VerifyFault};
pub use running::{finding, run_verify};
pub use verdict::Verdict;
pub use verifier::Verifier;
