//! What is told of a rule that is broken, of a line that is not audited, and at the end: as text, or as JSON, an object
//! on a line of its own.
//!
//! Promise: what is told is exactly what the definitions say, and no part of what stood before is lost where memory is
//! refused (`push_finding`, `push_error`, `push_sum`); a code is heard as it is read (`heard_in`), and codes are counted,
//! and those of them that are garbled (`Codes::hear`); names of rules are read back (`rule_name`, `rule_named`).
//!
//! - `names.rt`: the names of rules, and whose rule each is. `hearing.rt`: `heard_in`, what is heard where something is
//!   said. `codes.rt`: `Codes`, how many codes came, and how many of them are garbled.
//! - `words.rt`: what is told of what was said: its words, and the unit that it names. `why.rt`: why a rule is broken;
//!   `reason.rt`: the same as text.
//! - `text.rt`: what is told as text; `object.rt`: as an object; `push.rt`: in one form or the other.
//! - `error.rt`: why a line is not audited, and the sum of all. `piece.rt`: the pieces that texts are made of.
//! - `laws.rt`: laws of the definitions.
//!
//! Where to make which change: a new rule has its name in `specs/Names.antt` and `names.rt`, and why it is broken in
//! `specs/Why.antt` and `why.rt`; how a reason reads stands in `specs/Reason.antt` and `reason.rt`, a line in
//! `specs/Text.antt`, an object in `specs/Object.antt`.
#![tactic(auto)]

mod codes;
mod error;
mod hearing;
mod laws;
mod names;
mod object;
mod piece;
mod push;
mod reason;
mod text;
mod why;
mod words;

pub use codes::Codes;
pub use error::{AuditSum, LineError, push_error, push_sum};
pub use hearing::heard_in;
pub use laws::{names_are_read_back, rules_are_listed};
pub use names::{RULES, Side, rule_name, rule_named, side_of};
pub use push::{FindingForm, Place, push_finding};
