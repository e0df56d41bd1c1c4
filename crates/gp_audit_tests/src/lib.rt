//! The tests of `line_columns`, `gp_finding`, `gp_audit`, `gp_census` and `gp_transcribe`: they try what no clause says,
//! and what a contract says once more, on logs that are written by hand. They stand here, since a crate with tests is
//! proved twice.
//!
//! - `words.rt`: logs in words, and what an audit says of one.
//! - `rules.rt`: each rule broken alone, and not broken by what is nearest to that.
//! - `lines.rt`: lines that are none, times that fall, logs that come octet by octet, reads that fail.
//! - `options.rt`: options as they are given.
//! - `units.rt`: what is told of the units at the end.
//! - `transcribe.rt`: traces that are written as logs.
//! - `many.rt`: more serial numbers than are followed, more delays than are kept, a line that is too long, what is told
//!   alone.
//! - `judged.rt`: what of a log is judged.
//! - `columns.rt`: exports of analysers and spreadsheets; `plain.rt`: what is read of one of their lines.
#![tactic(auto)]

#[cfg(test)]
mod columns;
#[cfg(test)]
mod judged;
#[cfg(test)]
mod lines;
#[cfg(test)]
mod many;
#[cfg(test)]
mod options;
#[cfg(test)]
mod plain;
#[cfg(test)]
mod rules;
#[cfg(test)]
mod transcribe;
#[cfg(test)]
mod units;
#[cfg(test)]
mod words;
