//! The law that the constants are the numbers that contracts have for them.
ghost use Rattle.std.specs.Prelude.{◌≡◌};
ghost use Rattle.gp_pools.specs.Limits.{first_alloc_id, last_alloc_id, max_quarantine};
ghost use Rattle.gp_pools.specs.Slots.{max_allocs};

use super::alloc_ids::{FIRST_ALLOC_ID, LAST_ALLOC_ID};
use super::allocs::MAX_ALLOCS;
use super::cooling::MAX_QUARANTINE;

/// States that the constants are the numbers that contracts have for them.
pub fn numbers_are_limited()
    ensures first { FIRST_ALLOC_ID ≡ first_alloc_id }
    ensures last { LAST_ALLOC_ID ≡ last_alloc_id }
    ensures each { MAX_ALLOCS ≡ max_allocs }
    ensures quarantine { MAX_QUARANTINE ≡ max_quarantine }
{}
