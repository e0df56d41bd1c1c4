//! Compares what is written with what is expected, octet by octet, while it is written: neither is kept, however long
//! they are. Of the first line that differs both sides are shown.
//!
//! Promise: two texts are told to be the same only where what was expected was read to its end and is what came, to the
//! last octet; else the first octet that differs is told, with its line (`compare_text`, `Comparer`).
//!
//! - `comparer.rt`: `Comparer`, the writer that reads what is expected beside what it takes.
//! - `texts.rt`: `compare_text`, which hands it a text that is at hand.
//! - `step.rt`: how much of what comes is as expected, or the first octet that isn't.
//! - `ahead.rt`: `Ahead`, a source of which a block is read ahead. `place.rt`: how far two texts are the same, by line
//!   and octet. `shown.rt`: what is shown of a line. `difference.rt`: the first octet that differs.
//! - `expects.rt`: what a writer is to take, in contracts alone. `fault.rt`: why they were not compared to their end, with the
//!   source that can't be read.
//!
//! Where to make which change: how much of a line is shown is a number in `shown.rt` and in `specs/Shown.antt`; what a
//! difference is stands in `specs/Difference.antt`, what a writer knows in `specs/Comparer.antt`.
#![tactic(auto)]

mod ahead;
mod comparer;
mod difference;
mod expects;
mod fault;
mod place;
mod shown;
mod step;
mod texts;

pub use comparer::Comparer;
pub use difference::Difference;
pub use expects::Expects;
pub use fault::{CompareError, CompareFault};
pub use shown::{LineEnd, MAX_SHOWN, ShownLine};
pub use texts::compare_text;
