//! Writes a trace again with its codes in words.
//!
//! Promise: each line is the trace's line with its codes told, in the form that was asked for (`explain_trace`,
//! `Telling`).
//!
//! - `line.rt`: one line in words; `place.rt`: where in a line codes stand. `time.rt`: a port's time before a line.
//! - `telling.rt`: `Telling`, which tells any lines, one after another, in one of the forms of `form.rt`.
//! - `explainer.rt`: `Explainer`, which is given the lines of a trace one after another; `serving.rt`: as what serves
//!   lines.
//! - `running.rt`: `explain_trace`, from the bytes of a trace to its lines in words.
//! - `fault.rt`: why a line is none of a trace, and how it may end.
//!
//! Where to make which change: what a line is in words stands in `specs/Words.antt`, the words of a message in
//! `gp_decode`, what is said to which line in `specs/Explaining.antt`, and how it may end in `specs/Outcome.antt`.
#![tactic(auto)]

mod explainer;
mod fault;
mod form;
mod line;
mod place;
mod running;
mod serving;
mod telling;
mod time;

pub use explainer::Explainer;
pub use fault::{ExplainFault, NoLine};
pub use form::Form;
pub use place::Place;
pub use running::explain_trace;
pub use telling::Telling;
