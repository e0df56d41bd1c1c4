//! Reads the hexadecimal digits of a code, two for each of its thirteen octets, and of a part of one.
//!
//! Promise: a text of two digits for each octet is read as the octets, and no other text is (`octets_in`).
//!
//! - `digits.rt`: `octets_in`, which reads with no branch that depends on a digit.
//!
//! Where to make which change: what the digits of octets are stands in the crate `hex`; how they are read, in
//! `digits.rt`. What is wrong with any other text is said by the crates above.
#![tactic(auto)]

mod digits;

pub use digits::{CODE_DIGITS, octets_in};
