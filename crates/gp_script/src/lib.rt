//! A script: what its text says, or its first mistake and where it stands.
//!
//! Promise: a script is what its text says, or its first fault is told, with the table and the key (`read_script`,
//! `read_script_at`).
//!
//! - `reading.rt`: `read_script_at`, and for a storm `read_storm_script_at`; without the place of a mistake
//!   `read_script`, `read_storm_script`.
//! - `script.rt`: a script that was read. `fault.rt`: the kind of a mistake. `mistake.rt`: a mistake and its place;
//!   `place.rt` the tables and keys, and what may be wanted there.
//! - `tables.rt`: the keys that a table may have. `top.rt`: the keys of the top.
//! - `ports.rt`: the port tables; an admission list tells whether a serial number was admitted before.
//! - `units.rt`: the tables of simulated units. `lose.rt`: those of what is lost on the way.
//! - `events.rt`: the event tables; `say.rt` those with `say`, `command.rt` those with `command`.
//! - `keys.rt`: the keys of a table, each value of its type. `values.rt`: the values, each in its range.
//! - `walk.rt`: a mistake on its way out of the tables, whose text is owned at the end alone.
//!
//! Where to make which change: what a table says stands in the file of `specs/` of the same name, a short
//! function for each kind of table, which answers the first mistake in the order in which it asks; `at_key`, `at_item`
//! and `in_table` of `specs/Mistake.antt` put its place onto it. A new key or a new form of event is a line or a
//! function there, and the same in the file here that is proved to do it.
#![tactic(auto)]

mod command;
mod events;
mod fault;
mod keys;
mod lose;
mod mistake;
mod place;
mod ports;
mod reading;
mod say;
mod script;
mod tables;
mod top;
mod units;
mod values;
mod walk;

pub use fault::{ScriptError, ScriptFault};
pub use mistake::{Mistake, PlacedError, SyntaxMistake, TableMistake};
pub use place::{Counted, Key, Spot, TablePlace, Wanted};
pub use reading::{
    faults_are_mistakes, read_script, read_script_at, read_storm_script, read_storm_script_at,
    storm_faults_are_mistakes,
};
pub use script::{Script, ScriptEvent, ScriptLosses, ScriptUnit};
