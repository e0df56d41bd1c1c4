//! What is told as JSON, read again by `serde_json`: each field of each object, and no other. The tests of
//! `gp_code_objects` and of the objects of `gp_storm`, and those of `gp_json` for each row of a trace's tables.
//! They stand here, since a crate with tests is proved twice.
//!
//! - `fields.rt`: fields that are wanted of an object.
//! - `decode.rt`, `encode.rt`: lines of codes and of words, and single ones, and the object of each; `decode/rows.rt`
//!   has the messages, `decode/lines.rt` what is told of many lines.
//! - `storm.rt`: the totals of a storm.
//! - `trace.rt`: the line of an entry, and its object; `trace/events.rt` has a row for each event, `trace/replies.rt`
//!   for each reply and refusal, `trace/rest.rt` for each message sent, grant and alarm.
#![tactic(auto)]

#[cfg(test)]
mod decode;
#[cfg(test)]
mod encode;
#[cfg(test)]
mod fields;
#[cfg(test)]
mod storm;
#[cfg(test)]
mod trace;
