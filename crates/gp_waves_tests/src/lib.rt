//! The tests of `gp_waves`: that what is written is read back by another parser, that every change stands for something
//! that a line says, and that none is left out.
//!
//! - `parsed.rt`: a parser of value change dumps. `dumped.rt`: dumps of texts, and what is counted of them.
//!   `texts.rt`: a trace and a log.
//! - `run.rt`: a short run, change by change, and some of its frames. `counts.rt`: changes, counted against the input,
//!   and their values and times. `ports.rt`: ports that are not in step. `lanes.rt`: more units than lanes.
//! - `hostile.rt`: lines that are none, times that fall, garbled codes, readers and writers that fail, memory that is
//!   refused.
#![tactic(auto)]

#[cfg(test)]
mod counts;
#[cfg(test)]
mod dumped;
#[cfg(test)]
mod hostile;
#[cfg(test)]
mod lanes;
#[cfg(test)]
mod parsed;
#[cfg(test)]
mod ports;
#[cfg(test)]
mod run;
#[cfg(test)]
mod texts;
