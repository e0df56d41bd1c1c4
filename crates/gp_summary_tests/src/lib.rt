//! The tests of `gp_tally`, `gp_summary`, `gp_summed` and `gp_with_units`: what is counted of lines and told at the end,
//! by sums that were made by hand.
//!
//! - `summary.rt`: scripts that are played and summed, as text and as JSON; a writer that fails.
//! - `lines.rt`: lines that are counted, whole and in pieces.
//! - `summed.rt`: traces that are verified, scripts that are driven, and light that is told.
//! - `explained.rt`: traces that are told again, and what was counted and heard of them.
//! - `with_units.rt`: what is written behind each of these, or alone, also where memory is refused; `with_units/told.rt`
//!   has it in each form, and to a writer that fails.
//! - `compared.rt`: summaries beside what is wanted of them. `streams.rt`: a writer that fails.
#![tactic(auto)]

#[cfg(test)]
mod compared;
#[cfg(test)]
mod explained;
#[cfg(test)]
mod lines;
#[cfg(test)]
mod streams;
#[cfg(test)]
mod summary;
#[cfg(test)]
mod summed;
#[cfg(test)]
mod with_units;
