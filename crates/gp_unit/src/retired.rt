//! What is left of a unit that is no more, or begins anew: the numbers that it has to give up. A freed ONU-ID begins to
//! cool.
ghost use Rattle.std.specs.Prelude.{◌≡◌};
ghost use Rattle.std.specs.Option.{ForSome};
ghost use Rattle.gp_pools.specs.Allocs.{AreLeased, numbers_of};
ghost use Rattle.gp_pools.specs.Pool.{IsLeased, pool_without_all};
ghost use Rattle.gp_unit.specs.Units.{onus_given_up};

use gp_linear::NeverDropped;
use gp_ploam::Serial;
use gp_pools::{AllocIds, AllocLeases, OnuIds, OnuLease};
use std::marker::Model;

/// What is left of a unit that is no more, or that begins anew. It is no `Drop`: it gives up its numbers.
pub struct Retired {
    pub(super) serial: Serial,
    pub(super) onu: Option<OnuLease>,
    pub(super) allocs: AllocLeases,
}

impl NeverDropped for Retired {}

impl Model for Retired {
    ghost use Rattle.gp_unit.specs.Units.{RetiredState, retired_code};

    ghost Value = { RetiredState };

    ghost coded = { retired_code };

    ghost view = { λ r. record { serial = r.serial; onu = r.onu; allocs = r.allocs } };
}

impl Retired {
    /// Tells the unit's serial number.
    pub fn serial(&self) -> Serial
        ensures { result ≡ self.now.serial }
    {
        self.serial
    }

    /// Gives the unit's numbers back to the pools that they were leased from. The ONU-ID, where it is among them,
    /// begins to cool; after `Ranging::restart` there are Alloc-IDs alone.
    pub fn give_up(self, onus: &mut OnuIds, alloc_ids: &mut AllocIds)
        requires onu { ForSome self.onu (IsLeased onus.old.pool) }
        requires allocs { AreLeased alloc_ids.old self.allocs }
        ensures onus { onus.new ≡ onus_given_up onus.old self.onu }
        ensures allocs { alloc_ids.new ≡ pool_without_all alloc_ids.old (numbers_of self.allocs) }
    {
        let Retired {
            serial: _,
            onu,
            allocs,
        } = self;
        match onu {
            Some(lease) => onus.give_back(lease),
            None => {}
        }
        alloc_ids.give_back_all(allocs);
    }
}
