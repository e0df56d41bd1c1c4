//! The further Alloc-IDs of a port: each is free, leased or settled. A lease is no `Drop`: it goes back to the pool, or
//! is settled there.
ghost use Rattle.std.specs.Prelude.{◌≡◌, ℕ, ◌+◌, ◌-◌, ◌≤◌, ◌↔◌, IsTrue, IsNone, IfNone, IfSome};
ghost use Rattle.gp_pools.specs.Allocs.{AreLeased, AreSettled, numbers_of};
ghost use Rattle.gp_pools.specs.Limits.{first_alloc_id, last_alloc_id};
ghost use Rattle.gp_pools.specs.Pool.{AreAllOut, IsFree, IsLeased, IsSettled, IsSound, fresh_pool, pool_with_all_leased_again, pool_with_all_settled, pool_with_lease, pool_with_lease_again, pool_with_settled, pool_without_all, pool_without_lease};

use super::alloc_leases::AllocLeases;
use super::allocs::Allocs;
use super::number_pool::NumberPool;
use gp_linear::NeverDropped;
use std::marker::Model;

/// The first Alloc-ID that is no unit's default one, which is its ONU-ID (G.984.3, clause 8).
pub const FIRST_ALLOC_ID: u16 = 256;

/// The last Alloc-ID, of twelve bits (G.984.3, clause 9).
pub const LAST_ALLOC_ID: u16 = 4095;

/// A leased Alloc-ID. It is no `Drop`: it goes back to its pool, or is settled there.
pub struct AllocLease {
    pub(super) number: u16,
}

impl NeverDropped for AllocLease {}

impl Model for AllocLease {
    ghost Value = { ℕ };

    ghost view = { λ lease. lease.number };

    ghost invariant = { λ lease. (first_alloc_id ≤ lease.number) × (lease.number ≤ last_alloc_id) };
}

impl AllocLease {
    /// Tells the Alloc-ID, 256 to 4095.
    pub fn number(&self) -> u16
        ensures number { result ≡ self.now }
        ensures from { first_alloc_id ≤ result }
        ensures to { result ≤ last_alloc_id }
    {
        self.number
    }
}

/// The further Alloc-IDs of a port, 256 to its last one. Contracts see which are leased and which are
/// settled; both are out.
#[derive(Drop)]
pub struct AllocIds {
    pub(super) pool: NumberPool<FIRST_ALLOC_ID, 60>,
}

impl Model for AllocIds {
    ghost use Rattle.std.specs.Prelude.{◌≡◌, ◌+◌, ◌-◌, ◌≤◌};
    ghost use Rattle.gp_pools.specs.Limits.{first_alloc_id, last_alloc_id};
    ghost use Rattle.gp_pools.specs.Pool.{Pool, pool_code};

    ghost Value = { Pool };

    ghost coded = { pool_code };

    ghost view = { λ ids. ids.pool };

    ghost invariant = { λ ids. (ids.pool.first ≡ first_alloc_id) × (ids.pool.last ≤ last_alloc_id)
        × (ids.pool.limit ≡ ids.pool.last + 1 - first_alloc_id) };
}

impl AllocIds {
    /// Makes the pool of the Alloc-IDs from 256 to `alloc_last`, none where that is less.
    pub fn new(alloc_last: u16) -> AllocIds
        requires { alloc_last ≤ last_alloc_id }
        ensures { result ≡ fresh_pool first_alloc_id alloc_last (alloc_last + 1 - first_alloc_id) }
    {
        let count = (alloc_last + 1).saturating_sub(FIRST_ALLOC_ID);
        AllocIds {
            pool: NumberPool::new(alloc_last, count),
        }
    }

    /// Leases an Alloc-ID that is not out; which one is not promised. None exactly where all are out.
    pub fn take(&mut self) -> Option<AllocLease>
        ensures none { IsNone result ↔ AreAllOut self.old }
        ensures unchanged { IfNone result (self.new ≡ self.old) }
        ensures free { IfSome result (IsFree self.old) }
        ensures lease { IfSome result (λ number. self.new ≡ pool_with_lease self.old number) }
        ensures leased { IfSome result (IsLeased self.new) }
    {
        let number = self.pool.take()?;
        Some(AllocLease { number })
    }

    /// Tells whether `take` would lease an Alloc-ID. It takes none.
    pub fn any_free(&self) -> bool
        ensures { IsTrue result ↔ ((number : ℕ) × IsFree self.now number) }
    {
        self.pool.has_room()
    }

    /// Takes back a lease of this pool: its number is not out any more. A lease doesn't name its pool; that it
    /// is not of another port's pool is for the caller to see to.
    pub fn give_back(&mut self, lease: AllocLease)
        requires { IsLeased self.old lease }
        ensures { self.new ≡ pool_without_lease self.old lease }
    {
        let AllocLease { number } = lease;
        self.pool.give_back(number);
    }

    /// Tells whether the Alloc-ID is one of the pool's, and not out.
    pub fn is_free(&self, number: u16) -> bool
        ensures free { IsTrue result ↔ IsFree self.now number }
        ensures sound { IsSound self.now }
    {
        self.pool.is_free(number)
    }

    /// Settles an Alloc-ID that is leased from this pool: it stays out, and the plain number stands for it until it
    /// is leased again.
    pub fn settle(&mut self, lease: AllocLease) -> u16
        requires { IsLeased self.old lease }
        ensures number { result ≡ lease }
        ensures pool { self.new ≡ pool_with_settled self.old lease }
        ensures settled { IsSettled self.new result }
    {
        let AllocLease { number } = lease;
        self.pool.settle(number);
        number
    }

    /// Leases a settled Alloc-ID again; it is settled no more.
    pub fn lease_of(&mut self, number: u16) -> AllocLease
        requires { IsSettled self.old number }
        ensures number { result ≡ number }
        ensures pool { self.new ≡ pool_with_lease_again self.old number }
        ensures leased { IsLeased self.new number }
    {
        self.pool.lease_again(number);
        AllocLease { number }
    }

    /// Settles each of these leases: the plain numbers stand for them until they are leased again.
    pub fn settle_all(&mut self, leases: AllocLeases) -> Allocs
        requires { AreLeased self.old leases }
        ensures allocs { result ≡ leases }
        ensures pool { self.new ≡ pool_with_all_settled self.old (numbers_of leases) }
        ensures settled { AreSettled self.new leases }
    {
        let AllocLeases { allocs } = leases;
        self.pool.settle_each(&allocs.slots());
        allocs
    }

    /// Leases these settled Alloc-IDs again; they are settled no more.
    pub fn leases_of(&mut self, allocs: Allocs) -> AllocLeases
        requires { AreSettled self.old allocs }
        ensures leases { result ≡ allocs }
        ensures pool { self.new ≡ pool_with_all_leased_again self.old (numbers_of allocs) }
        ensures leased { AreLeased self.new allocs }
    {
        self.pool.lease_each(&allocs.slots());
        AllocLeases { allocs }
    }

    /// Takes back each of these leases.
    pub fn give_back_all(&mut self, leases: AllocLeases)
        requires { AreLeased self.old leases }
        ensures { self.new ≡ pool_without_all self.old (numbers_of leases) }
    {
        let AllocLeases { allocs } = leases;
        self.pool.give_back_each(&allocs.slots());
    }
}
