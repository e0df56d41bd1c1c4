//! The active units of a port with the numbers that they have (G.984.3, clauses 8 to 10): found by serial number or by
//! ONU-ID without a scan, and no memory is taken once it was made.
//!
//! Promise: the active units are a finite map with their numbers, whatever keeps it (`ActiveUnits::look_up`, `add`).
//!
//! - `active_units.rt`: the units with their pools of numbers. Between calls no number is leased; a number is taken
//!   or freed through a lease and the typed units of gp_unit. A new change to a unit goes here.
//! - `unit_table.rt`: the records, in a slab, with the indexes: by serial number, by ONU-ID, and the sets of the
//!   ranging and the operating ONU-IDs, which tell whose turn it is.
//! - `admission_index.rt`: the index by serial number, over those that are admitted; it stays as it is from `begin`
//!   on, and one search tells whether a serial number is admitted, disabled, and active.
//!
//! `specs/Active.antt` says what a port sees of it. `specs/Table.antt` and `specs/Index.antt` say how it is kept, and
//! `proofs/` has what keeps it so: `Tables` and `Kept` for the table, `Numbers` and `Together` for the pools.
#![tactic(auto)]

mod active_units;
mod admission_index;
mod unit_table;

pub use active_units::{ActiveUnits, NumberLimits};
pub use unit_table::UnitEntry;
