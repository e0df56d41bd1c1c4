//! The tests of `gp_ploam`, `gp_serial`, `gp_licence`, `gp_alarms`, `gp_timers`, `gp_pools`, `gp_volley`, `gp_unit`
//! and `gp_port`: what no clause says of them. They stand here, since a crate with tests is proved twice.
//!
//! - `ploam.rt`: codes and check values from outside, the limits of each field, and printed faults.
//! - `serial.rt`: worked spellings, a full port, printed faults, and memory that is refused.
//! - `licence.rt`: the generic code, once at a ledger of its own.
//! - `alarms.rt`: the ends of poll windows, by rows, and the names of alarms.
//! - `timers.rt`: a wheel used by hand, wheels of many sizes, and memory that is refused.
//! - `pools.rt`: every number leased in turn, and the quarantine by frames.
//! - `volley.rt`: a full queue, the order of copies, and memory that is refused.
//! - `unit.rt`: a unit used by hand.
//! - `port.rt`: a port used by hand, its fault texts, memory that is refused, and octets of each length.
//!   `port/lines.rt` plays a port by lines, which are in `port/parts.rt`; `port/worked.rt` and `port/images.rt` play
//!   runs so.
//! - `samples.rt`: what several of them use.
#![tactic(auto)]

#[cfg(test)]
mod alarms;
#[cfg(test)]
mod licence;
#[cfg(test)]
mod ploam;
#[cfg(test)]
mod pools;
#[cfg(test)]
mod port;
#[cfg(test)]
mod samples;
#[cfg(test)]
mod serial;
#[cfg(test)]
mod timers;
#[cfg(test)]
mod unit;
#[cfg(test)]
mod volley;
