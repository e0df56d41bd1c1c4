//! Leases of a number that the caller names, and which number would be leased next.
ghost use Rattle.std.specs.Prelude.{◌≡◌, ℕ, ◌↔◌, IsTrue, IfNone, IfSome};
ghost use Rattle.gp_pools.specs.Onu.{IsFreeOnu, NoneIsFree, onus_with_lease};
ghost use Rattle.gp_pools.specs.Pool.{HasRoom, IsFree, IsLeased, pool_with_lease};

use super::alloc_ids::{AllocIds, AllocLease};
use super::onu_ids::{OnuIds, OnuLease};
use gp_numbers::NumberSet;

impl OnuIds {
    /// Tells whether fewer ONU-IDs are out than may be.
    pub fn has_room(&self) -> bool
        ensures { IsTrue result ↔ HasRoom self.now.pool }
    {
        self.pool.has_room()
    }

    /// Finds the ONU-ID that `take` would lease, the least one, and leases none.
    pub fn free_one(&self) -> Option<u8>
        ensures none { IfNone result (NoneIsFree self.now) }
        ensures free { IfSome result (IsFreeOnu self.now) }
        ensures room { IfSome result (λ _. HasRoom self.now.pool) }
    {
        match self.pool.least_free(self.cooling.members()) {
            Some(number) => Some(number as u8),
            None => None,
        }
    }

    /// Leases this ONU-ID.
    pub fn lease(&mut self, number: u8) -> OnuLease
        requires free { IsFreeOnu self.old number }
        requires room { HasRoom self.old.pool }
        ensures number { result ≡ number }
        ensures pool { self.new ≡ onus_with_lease self.old number }
        ensures leased { IsLeased self.new.pool number }
    {
        self.pool.lease(u16::from(number));
        OnuLease { number }
    }
}

impl AllocIds {
    /// Finds the Alloc-ID that `take` would lease, the least one, and leases none.
    pub fn free_one(&self) -> Option<u16>
        ensures none { IfNone result ((number : ℕ) → IsFree self.now number → ⊥) }
        ensures free { IfSome result (IsFree self.now) }
    {
        self.pool.least_free(&NumberSet::new())
    }

    /// Leases this Alloc-ID.
    pub fn lease(&mut self, number: u16) -> AllocLease
        requires free { IsFree self.old number }
        ensures number { result ≡ number }
        ensures pool { self.new ≡ pool_with_lease self.old number }
        ensures leased { IsLeased self.new number }
    {
        // The question is asked so that the pool is known to be sound: then a free number leaves room.
        let free = self.pool.is_free(number);
        prove!(free);
        self.pool.lease(number);
        AllocLease { number }
    }
}
