//! The leases of one unit's further Alloc-IDs, as one value that is no `Drop`.
ghost use Rattle.std.specs.Prelude.{◌≡◌, ℕ, ◌<◌, ◌≤◌, Bool, true, false, IsSome, None};
ghost use Rattle.std.specs.FinMap as map;
ghost use Rattle.gp_pools.specs.Slots.{max_allocs};

use super::alloc_ids::AllocLease;
use super::allocs::Allocs;
use gp_linear::NeverDropped;
use std::marker::Model;

/// The leases of the further Alloc-IDs of a unit, each held (false) or leaving (true). It is no `Drop`: the leases go
/// back to their pool, or are settled there. Contracts see a finite map, as of `Allocs`.
pub struct AllocLeases {
    pub(super) allocs: Allocs,
}

impl NeverDropped for AllocLeases {}

impl Model for AllocLeases {
    ghost use Rattle.std.specs.Prelude.{Bool};
    ghost use Rattle.std.specs.FinMap as map;
    ghost use Rattle.std.specs.Ordering.{nat_cmp};
    ghost use Rattle.std.specs.Coded.{coded_ℕ, coded_bool};
    ghost use Rattle.gp_pools.specs.Allocs.{AreFurther};

    ghost Value = { map.FinMap nat_cmp Bool };

    ghost coded = { map.code coded_ℕ coded_bool };

    ghost view = { λ a. a.allocs };

    ghost invariant = { λ a. AreFurther a.allocs };
}

impl AllocLeases {
    /// Makes a value without leases.
    pub fn none() -> AllocLeases
        ensures { result ≡ map.empty }
    {
        AllocLeases {
            allocs: Allocs::new(),
        }
    }

    /// Counts the leases, 0 to 8.
    pub fn len(&self) -> usize
        ensures { result ≡ map.len self.now }
    {
        self.allocs.len()
    }

    /// Tells whether this Alloc-ID is leaving, if its lease is here.
    pub fn get(&self, number: u16) -> Option<bool>
        ensures { result ≡ map.get self.now number }
    {
        self.allocs.get(number)
    }

    /// Holds one more Alloc-ID.
    pub fn hold(&mut self, lease: AllocLease)
        requires room { map.len self.old < max_allocs }
        requires new { map.get self.old lease ≡ None }
        ensures { self.new ≡ map.insert self.old lease false }
    {
        let AllocLease { number } = lease;
        self.allocs.insert(number, false);
    }

    /// Makes a held Alloc-ID leave.
    pub fn leave(&mut self, number: u16)
        requires { IsSome (map.get self.old number) }
        ensures { self.new ≡ map.insert self.old number true }
    {
        self.allocs.insert(number, true);
    }

    /// Takes out the lease of an Alloc-ID.
    pub fn free(&mut self, number: u16) -> AllocLease
        requires { IsSome (map.get self.old number) }
        ensures number { result ≡ number }
        ensures rest { self.new ≡ map.remove self.old number }
    {
        self.allocs.remove(number);
        AllocLease { number }
    }
}
