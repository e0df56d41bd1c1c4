//! The tests of `gp_stream`, `gp_script`, `gp_check`, `gp_decode`, `gp_encode`, `gp_explain`, `gp_json`, `gp_tell`,
//! `gp_trace`, `gp_lines`, `gp_log`, `gp_replay`, `gp_verify`, `gp_drive`, `gp_storm` and `gp_report`: what no clause
//! says of them.
//! They stand here, since a crate with tests is proved twice.
//!
//! - `stream.rt`: readers and writers that fail, or take an octet a call.
//! - `script.rt`: scripts that are read; `script/ranges.rt` has the ends of each range, `script/faults.rt` what is
//!   refused.
//! - `check.rt`: where a script is wrong, and what is wanted there; `check/rows.rt` has the scripts; `check/objects.rt`
//!   reads its objects as JSON.
//! - `decode.rt`, `trace.rt`: lines as they are printed; a code is decoded also where memory is refused.
//! - `encode.rt`, `explain.rt`: codes of messages in words; traces in words. `tell.rt`: the same while a trace is
//!   written.
//! - `fields.rt`: the objects of messages and of Alloc-IDs, read as JSON.
//! - `lines.rt`: events and turns that are read, the first fault of each text that is refused, and lines of a trace.
//! - `log.rt`: lines of a log and of a trace: what each says on the fibre, its first fault, and lines that are written.
//! - `replay.rt`, `storm.rt`: whole scripts to their trace or their totals, readers and writers that fail, and memory
//!   that is refused; `storm/plans.rt` storms plans.
//! - `turns.rt`: turns that a player tells, beside turns that a chassis serves.
//! - `drive.rt`: lines that ask for something, and what is said to each.
//! - `verify.rt`: traces that are told to be runs, and the first line of each that is not; `verify/objects.rt` reads
//!   what is told as JSON, `verify/words.rt` has it in words.
//! - `report.rt`: fault texts and statuses.
//! - `streams.rt`, `json.rt`, `printed.rt`: readers and writers that fail, fields of JSON objects, and what is printed,
//!   for several of these.
#![tactic(auto)]

#[cfg(test)]
mod check;
#[cfg(test)]
mod decode;
#[cfg(test)]
mod drive;
#[cfg(test)]
mod encode;
#[cfg(test)]
mod explain;
#[cfg(test)]
mod fields;
#[cfg(test)]
mod json;
#[cfg(test)]
mod lines;
#[cfg(test)]
mod log;
#[cfg(test)]
mod printed;
#[cfg(test)]
mod replay;
#[cfg(test)]
mod report;
#[cfg(test)]
mod script;
#[cfg(test)]
mod storm;
#[cfg(test)]
mod stream;
#[cfg(test)]
mod streams;
#[cfg(test)]
mod tell;
#[cfg(test)]
mod trace;
#[cfg(test)]
mod turns;
#[cfg(test)]
mod verify;
