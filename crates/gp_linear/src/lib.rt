//! What forbids `Drop` for a type whose values are ended by its own calls: a licence, a lease, a window, a volley.
//!
//! Promise: what is marked so can't get a `Drop` (`NeverDropped`).
//!
//! A value of a type without `Drop` can't be lost: the checker refuses a function that lets go of one. But a
//! `#[derive(Drop)]` above such a type would allow it. So each such type has `impl NeverDropped for TYPE {}` beside it,
//! in its own crate; with a `Drop` it would have the trait by two impls, and the crate would not compile.
//!
//! This file is all of the crate. A new type of this kind needs the one line beside it, and a type that may be
//! dropped after all loses that line.
#![tactic(auto)]

/// A type that must not have `Drop`.
///
/// Each type with `Drop` has this trait already, so no further impl for one compiles.
pub trait NeverDropped {}

impl<T: Drop> NeverDropped for T {}
