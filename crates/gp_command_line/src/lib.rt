//! The command line of `oltctl`: its commands and options, their help, and what its words ask for.
//!
//! Promise: the words of a command line are read as `clap` defines (`parse`), and what they ask for is what their
//! options say, each by its name (`request_of`).
//!
//! - `command_line.rt`: `parse` and the commands. `arguments.rt`: their arguments. `help.rt`: what stands at the end of
//!   each help.
//! - `request.rt`: `Request`, what is asked for, and `request_of`.
//!
//! Where to make which change: the rule of a command or an option stands in `specs/CommandLine.antt`, what it asks for
//! in `specs/Requests.antt`. What is done then is the program's.
#![tactic(auto)]

mod arguments;
mod command_line;
mod help;
mod request;

pub use command_line::{VERSION, parse};
pub use request::{
    Audit, Drawing, Dumping, Explanation, Play, Request, StormPlay, Testing, TraceForm,
    Verification, request_of,
};
