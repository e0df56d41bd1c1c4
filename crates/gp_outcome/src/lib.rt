//! What became of a script that was played beside what it has to write: judged, and told by a line, as a JSON object or
//! as a test case of JUnit.
//!
//! Promise: a script passes only where its trace is what was expected, to the last octet, or where it is wrong and what
//! is told of that is what was expected (`judge`); what failed is told with the first line that differs.
//!
//! - `judging.rt`: `judge`, from the octets of a script, and what stands beside it, to what became of it. `playing.rt`:
//!   `compare_play`, which plays a script beside the trace that it has to write.
//! - `outcome.rt`: `Outcome` and `Failure`; `verdict.rt`: `Verdict`, with the names of the file.
//! - `words.rt`: why it failed, in words; `line.rt`: its line. `object.rt`: its JSON object. `junit.rt`: the test cases
//!   of JUnit's XML. `tally.rt`: `Tally`, how many there were of each.
//!
//! Where to make which change: when a script passes stands in `specs/Judging.antt` and `specs/Playing.antt`, the words
//! in `specs/Words.antt`, and each of these in the functions here that are proved by it.
#![tactic(auto)]

mod judging;
mod junit;
mod line;
mod object;
mod outcome;
mod playing;
mod tally;
mod verdict;
mod words;

pub use judging::{Expected, judge};
pub use junit::{push_suite, push_suites_begin, push_suites_end};
pub use line::verdict_line;
pub use object::verdict_object;
pub use outcome::{Failure, Outcome};
pub use tally::Tally;
pub use verdict::{Verdict, path_of};
