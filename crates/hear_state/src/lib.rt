//! What is known of one port's units by what was said on its fibre, kept in tables, and the rules of the terminal as
//! functions of it. Nothing of the program uses it yet.
//!
//! Promise: what is known after what is heard is exactly what `hear_rules` defines (`Knowledge::hear`), and what each
//! rule of the terminal says of it is exactly its answer there (`Knowledge::judge`). Contracts say so of `known_of`,
//! the reading of what is kept, and compose along a run (`same_is_judged_same`). Where something can't be noted nothing
//! changes. An assignment writes a constant number of rows, and looks its serial numbers up by halves; no Alloc-ID is
//! looked at when a unit loses its own. Only messages to all units go through the tables.
//!
//! - `knowledge.rt`: `Knowledge`, begun whole or midway. `hear.rt`: what is known after what is heard (`hear`).
//!   `fault.rt`: why it can't be noted.
//! - `judge.rt`: what each rule says of what is heard (`judge`). `assigning.rt`, `ranging.rt`, `allocs.rt`,
//!   `grants.rt`: one function a rule. `settings.rt`: what delays are judged by.
//! - `rows.rt`: what is known of each ONU-ID. `index.rt`: the serial numbers that are followed. `owners.rt`: whose each
//!   Alloc-ID is. `facts.rt`: what may be unknown.
//! - `laws.rt`: that contracts by what is known compose. `tests.rt`: worked cases.
//! - `specs/Kept.antt`: what is kept, and `known_of`. `specs/Heard.antt`: why something can't be noted.
//!
//! Where to make which change: what is known and which rules there are stands in `hear_rules`; a new rule is a function
//! here and a line of `judge.rt`, and a line of `proofs/Sameness.antt`. A new fact is a field of `Followed`, `Row` or
//! `Knowledge`, a line of `known_of` and of `SameUnits`. How it is kept is free under unchanged clauses.
#![tactic(auto)]

mod allocs;
mod assigning;
mod facts;
mod fault;
mod grants;
mod hear;
mod index;
mod judge;
mod knowledge;
mod laws;
mod owners;
mod ranging;
mod rows;
mod settings;
#[cfg(test)]
mod tests;

pub use fault::HearFault;
pub use index::MOST_FOLLOWED;
pub use knowledge::Knowledge;
pub use laws::same_is_judged_same;
pub use settings::Settings;
