//! Serves the lines of an input without bound: each is answered at once, and memory is flat.
//!
//! Promise: each line is served, in whatever pieces the input comes, and all answers are out before more is read
//! (`run_lines`).
//!
//! - `lines.rt`: `run_lines`, which reads an input piece by piece. Whenever it asks for more, all answers are out.
//! - `work.rt`: `LineWork`, what is done with lines; `fault.rt`: why a line, or a whole input, was not answered.
//! - `open_line.rt`: the line of which octets came, and no line feed yet.
//! - What is written to and read from is `gp_stream`'s.
//!
//! Where to make which change: what the lines of an input are stands in `specs/Lines.antt`, and how serving them may
//! end in `Serves` there. A new way to work with lines is an `impl` of `LineWork`, which says by `speech` what it
//! answers and by `over` when no more of the input needs to be read.
#![tactic(auto)]

mod fault;
mod lines;
mod open_line;
mod work;

pub use fault::{LinesFault, Unanswered};
pub use lines::{LinesEnd, MAX_LINE_BYTES, lines_are_limited, run_lines};
pub use open_line::OpenLine;
pub use work::LineWork;
