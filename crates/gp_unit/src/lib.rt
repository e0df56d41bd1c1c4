//! What a port knows of one active unit (G.984.3, clause 10).
//!
//! Promise: each change of a unit is its row's function, and no lease of it is lost (`Row`, `Record::wake`).
//!
//! - `row.rt`: the row, plain data, with one method for each change; each is a small function of `specs/Rows.antt`,
//!   which is where a rule on rows is changed first. `specs/Sound.antt` says what is true of each row in every run.
//! - `row_view.rt`: a row as plain data, as a port shows it.
//! - `record.rt`: the row with the unit's serial number, which is what a port keeps.
//! - `ranging.rt`, `operating.rt`: the typed units, a record with the leases of its numbers (`leased.rt`). Their
//!   calls use the row's methods. A unit is no `Drop`: each call hands on what it holds.
//! - `retired.rt`: what is left of a unit that is no more, until its numbers are given up.
//!
//! `Record::wake` makes the typed unit of a record, and `settle` the record of a unit.
#![tactic(auto)]

mod leased;
mod operating;
mod ranging;
mod record;
mod retired;
mod row;
mod row_view;

pub use gp_pools::{Allocs, MAX_ALLOCS};
pub use operating::{Operating, PollClosed};
pub use ranging::{Ranging, RangingClosed};
pub use record::{Awake, Record};
pub use retired::Retired;
pub use row::{Phase, Row};
pub use row_view::RowView;
