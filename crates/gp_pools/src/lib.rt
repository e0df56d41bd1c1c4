//! The pools of ONU-IDs and Alloc-IDs of a port. A number is handed out as a lease, which can't be
//! dropped: it goes back to its pool, or is settled there and leased again. A freed ONU-ID cools for the
//! port's quarantine before it is handed out anew.
//!
//! Promise: a lease is of a free number, and None comes exactly where none is free; a freed ONU-ID cools for its
//! quarantine (`OnuIds::take`, `give_back`, `tick`, `AllocIds::take`).
//!
//! - `onu_ids.rt`: the ONU-IDs, a `NumberPool` with its `Cooling`; change there what a unit's number is.
//! - `alloc_ids.rt`: the further Alloc-IDs, a `NumberPool`.
//! - `named_leases.rt`: the number that would be leased next, and leases of a number that the caller names.
//! - `number_pool.rt`: which numbers are leased and settled, as two sets of bits, and the choice of the next one.
//! - `cooling.rt`: how long a freed number stays away. A frame in which none leaves looks at none.
//! - `copies.rt`: a second pool with the same numbers out, for an image of a port.
//! - `allocs.rt`: the further Alloc-IDs of one unit, plain data in eight places.
//! - `place.rt`: one of these places, in four octets: rows, answers and entries of journals have eight each.
//! - `alloc_leases.rt`: the leases of these, one spent value.
//! - `limits.rt`: the law that the constants are the numbers of `specs/`.
//!
//! `specs/` has the pools and the places as contracts see them, `proofs/` the lemmas.
#![tactic(auto)]

mod alloc_ids;
mod alloc_leases;
mod allocs;
mod cooling;
mod copies;
mod limits;
mod named_leases;
mod number_pool;
mod onu_ids;
mod place;

pub use alloc_ids::{AllocIds, AllocLease, FIRST_ALLOC_ID, LAST_ALLOC_ID};
pub use alloc_leases::AllocLeases;
pub use allocs::{Allocs, MAX_ALLOCS};
pub use cooling::MAX_QUARANTINE;
pub use limits::numbers_are_limited;
pub use onu_ids::{OnuIds, OnuLease};
