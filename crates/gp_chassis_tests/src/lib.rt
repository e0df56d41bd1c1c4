//! The tests of `gp_journal`, `gp_accounts`, `gp_chassis` and `gp_workers`, of `gp_onu` and of `gp_fibre`: what no
//! clause says of them. They stand here, since a crate with tests is proved twice.
//!
//! - `units.rt`: what the first four share: units, what these send, configurations, and replies as tables name them.
//! - `journal.rt`: histories of a port by hand. `accounts.rt`: receipts and journals that agree, and each way in
//!   which they don't.
//! - `desk.rt`: a port with its journal, until that is full.
//! - `chassis.rt`: runs of a chassis, as tables of lines, also where memory is refused. `chassis/lines.rt` plays them.
//! - `workers.rt`: what the tests with threads share; `workers/accounts.rt`, `workers/journals.rt`, `workers/ports.rt`,
//!   `workers/loops.rt` and `workers/parallel.rt` are those, and `workers/meeting.rt` has threads meet.
//! - `texts.rt`: the texts of faults.
//! - `onu.rt`: a simulated unit by rows of its table.
//! - `fibre.rt`: worlds of few units, their limits, their faults, and memory that is refused. `fibre/runs.rt` has their
//!   runs; `fibre/losses.rt` plays these into a list that is lent, and looks up what is lost beside a plain list.
#![tactic(auto)]

#[cfg(test)]
mod accounts;
#[cfg(test)]
mod chassis;
#[cfg(test)]
mod desk;
#[cfg(test)]
mod fibre;
#[cfg(test)]
mod journal;
#[cfg(test)]
mod onu;
#[cfg(test)]
mod texts;
#[cfg(test)]
mod units;
#[cfg(test)]
mod workers;
