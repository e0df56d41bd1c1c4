//! The tests of `gp_generate`: that what is written is a script of so many ports, units and events, and that each
//! mistake is the fault that it is to be.
//!
//! - `made.rt`: the text of a script. `scripts.rt`: scripts that are read back; `mistakes.rt`: those with mistakes.
//! - `plans.rt`: what there is no script of. `hostile.rt`: a writer that fails, and memory that is refused.
#![tactic(auto)]

#[cfg(test)]
mod hostile;
#[cfg(test)]
mod made;
#[cfg(test)]
mod mistakes;
#[cfg(test)]
mod plans;
#[cfg(test)]
mod scripts;
