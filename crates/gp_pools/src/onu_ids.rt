//! The ONU-IDs of a port: each is free, leased, settled or in quarantine. A lease is no `Drop`: it goes back to the
//! pool, where its number begins to cool, or is settled there.
ghost use Rattle.std.specs.Prelude.{◌≡◌, ℕ, ◌≤◌, ◌↔◌, IsTrue, IsNone, IfNone, IfSome, is_some};
ghost use Rattle.std.specs.FinMap as map;
ghost use Rattle.gp_ploam.specs.OnuIds.{last_onu, onu_ids};
ghost use Rattle.gp_pools.specs.Pool.{IsLeased, IsSettled, IsSound};
ghost use Rattle.gp_pools.specs.Limits.{max_quarantine};
ghost use Rattle.gp_pools.specs.Onu.{IsApart, IsFreeOnu, NoneIsFree, SomeIsFree, fresh_onu_pool, onus_after_frame, onus_with_lease, onus_with_lease_again, onus_with_settled, onus_without_lease};

use super::cooling::Cooling;
use super::number_pool::NumberPool;
use gp_linear::NeverDropped;
use gp_ploam::LAST_ONU;
use std::marker::Model;

/// A leased ONU-ID. It is no `Drop`: it goes back to its pool, or is settled there.
pub struct OnuLease {
    pub(super) number: u8,
}

impl NeverDropped for OnuLease {}

impl Model for OnuLease {
    ghost use Rattle.std.specs.Prelude.{ℕ, ◌≤◌};
    ghost use Rattle.gp_ploam.specs.OnuIds.{last_onu};

    ghost Value = { ℕ };

    ghost view = { λ lease. lease.number };

    ghost invariant = { λ lease. lease.number ≤ last_onu };
}

impl OnuLease {
    /// Tells the ONU-ID, 0 to 253.
    pub fn number(&self) -> u8
        ensures number { result ≡ self.now }
        ensures to { result ≤ last_onu }
    {
        self.number
    }
}

/// The ONU-IDs of a port, 0 to 253. Contracts see which are leased and which are settled, both of which are out, and
/// which were freed and are in quarantine, for how many frames more.
#[derive(Drop)]
pub struct OnuIds {
    pub(super) pool: NumberPool<0, 4>,
    pub(super) cooling: Cooling,
}

impl Model for OnuIds {
    ghost use Rattle.std.specs.Prelude.{◌≡◌};
    ghost use Rattle.gp_ploam.specs.OnuIds.{last_onu};
    ghost use Rattle.gp_pools.specs.Onu.{OnuPool, onu_pool_code, IsApart};

    ghost Value = { OnuPool };

    ghost coded = { onu_pool_code };

    ghost view = { λ ids. record { pool = ids.pool; quarantine = ids.cooling } };

    ghost invariant = { λ ids. (ids.pool.first ≡ 0) × (ids.pool.last ≡ last_onu)
        × IsApart (record { pool = ids.pool; quarantine = ids.cooling }) };
}

impl OnuIds {
    /// Makes the pool of all ONU-IDs, of which at most `max_units` may be out. One that is given back cools for
    /// `quarantine` frames, 0 to 8000.
    pub fn new(max_units: u8, quarantine: u16) -> OnuIds
        requires units { max_units ≤ onu_ids }
        requires frames { quarantine ≤ max_quarantine }
        ensures { result ≡ fresh_onu_pool max_units quarantine }
    {
        OnuIds {
            pool: NumberPool::new(u16::from(LAST_ONU), u16::from(max_units)),
            cooling: Cooling::new(quarantine),
        }
    }

    /// Leases an ONU-ID that is not out and does not cool; which one is not promised. None exactly where there is none,
    /// or as many are out as may be.
    pub fn take(&mut self) -> Option<OnuLease>
        ensures none { IsNone result ↔ NoneIsFree self.old }
        ensures unchanged { IfNone result (self.new ≡ self.old) }
        ensures free { IfSome result (IsFreeOnu self.old) }
        ensures lease { IfSome result (λ number. self.new ≡ onus_with_lease self.old number) }
        ensures leased { IfSome result (IsLeased self.new.pool) }
    {
        let number = self.pool.least_free(self.cooling.members())?;
        self.pool.lease(number);
        Some(OnuLease {
            number: number as u8,
        })
    }

    /// Tells whether `take` would lease a number. It takes none, so nothing has to be given back and cool.
    pub fn any_free(&self) -> bool
        ensures { IsTrue result ↔ SomeIsFree self.now }
    {
        self.pool.least_free(self.cooling.members()).is_some()
    }

    /// Takes back a lease of this pool: its number is not out any more, and begins to cool. A lease doesn't name its
    /// pool; that it is not of another port's pool is for the caller to see to.
    pub fn give_back(&mut self, lease: OnuLease)
        requires { IsLeased self.old.pool lease }
        ensures { self.new ≡ onus_without_lease self.old lease }
    {
        let OnuLease { number } = lease;
        self.pool.give_back(u16::from(number));
        self.cooling.begin(u16::from(number));
    }

    /// Lets a frame go by: each cooling number has a frame less, and leaves at 0. Where none leaves none is looked at.
    pub fn tick(&mut self)
        ensures { self.new ≡ onus_after_frame self.old }
    {
        self.cooling.tick();
    }

    /// Tells whether the ONU-ID was given back fewer frames ago than the quarantine has.
    pub fn is_cooling(&self, number: u8) -> bool
        ensures { result ≡ is_some (map.get self.now.quarantine.cooling number) }
    {
        self.cooling.members().contains(u16::from(number))
    }

    /// Tells whether the ONU-ID is one that a unit may get, 0 to 253, is not out and does not cool. `take` may be
    /// None all the same, where as many as may be are out.
    pub fn is_free(&self, number: u8) -> bool
        ensures free { IsTrue result ↔ IsFreeOnu self.now number }
        ensures sound { IsSound self.now.pool }
        ensures apart { IsApart self.now }
    {
        self.pool.is_free(u16::from(number)) && !self.is_cooling(number)
    }

    /// Settles an ONU-ID that is leased from this pool: it stays out, and the plain number stands for it until it is
    /// leased again.
    pub fn settle(&mut self, lease: OnuLease) -> u8
        requires { IsLeased self.old.pool lease }
        ensures number { result ≡ lease }
        ensures pool { self.new ≡ onus_with_settled self.old lease }
        ensures settled { IsSettled self.new.pool result }
    {
        let OnuLease { number } = lease;
        self.pool.settle(u16::from(number));
        number
    }

    /// Leases a settled ONU-ID again; it is settled no more.
    pub fn lease_of(&mut self, number: u8) -> OnuLease
        requires { IsSettled self.old.pool number }
        ensures number { result ≡ number }
        ensures pool { self.new ≡ onus_with_lease_again self.old number }
        ensures leased { IsLeased self.new.pool number }
    {
        self.pool.lease_again(u16::from(number));
        OnuLease { number }
    }
}
