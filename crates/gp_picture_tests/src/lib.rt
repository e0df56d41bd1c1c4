//! The tests of `gp_picture`: that every span and mark stands for something that a line says, and none is left out.
//!
//! - `drawn.rt`: pictures of texts, and what they hold. `run.rt`: a short run, element by element, some of its frames,
//!   and a line that is none. `counts.rt`: what is drawn, counted against the input.
#![tactic(auto)]

#[cfg(test)]
mod counts;
#[cfg(test)]
mod drawn;
#[cfg(test)]
mod run;
