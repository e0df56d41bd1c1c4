//! Tells of a file that it is a script, or where it is wrong and what is wanted there, by a line or as a JSON object.
//!
//! Promise: the line says that a file is a script, or the first fault with its place (`check_script`, `tell_script`).
//!
//! - `checking.rt`: `find_script`, which reads a source as a script to be replayed or run as a storm; `check_script`,
//!   which writes the line of the first. `source.rt`: `tell_script`, which tells of either, by a line or an object.
//! - `found.rt`: what was found in a source, and its text; `object.rt`: `found_object`, the same as a JSON object.
//! - `keys.rt`: what is told of a key that a table may not have. `text.rt`: the text of a mistake. `lines.rt`: the line
//!   where it stands. `fault.rt`: why nothing was told.
//!
//! Where to make which change: the words stand in `specs/Words.antt`, the line in `specs/Check.antt`, the object in
//! `specs/Object.antt`, which of them goes where in `specs/Telling.antt`, and each in the function here that is proved
//! to write it. What may be wrong with a script stands in `gp_script`.
#![tactic(auto)]

mod checking;
mod fault;
mod found;
mod keys;
mod lines;
mod object;
mod source;
mod text;

pub use checking::{Purpose, check_script, find_script, placed_line, read_script_for};
pub use fault::ScriptCheckFault;
pub use found::{Found, found_line};
pub use lines::line_of_mistake;
pub use object::{found_object, unread_object};
pub use source::{CheckManner, CheckedSource, tell_script};
pub use text::mistake_line;
