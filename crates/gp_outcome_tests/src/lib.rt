//! The tests of `gp_folder`, `gp_compare` and `gp_outcome`: what they print, in texts that are written by hand, and
//! sources that fail or give their octets in pieces. They stand here, since a crate with tests is proved twice.
//!
//! - `folders.rt`: which files of a folder belong together.
//! - `comparing.rt`: where two texts differ, and what is shown of that.
//! - `judging.rt`: scripts beside what they have to write; what is told of each, in each form.
//! - `sources.rt`: sources that give an octet at a time, or fail in the middle.
#![tactic(auto)]

#[cfg(test)]
mod comparing;
#[cfg(test)]
mod folders;
#[cfg(test)]
mod judging;
#[cfg(test)]
mod sources;
