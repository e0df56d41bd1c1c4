//! A record with the leases of its numbers: what each typed unit is inside. It is no `Drop`, so that no lease is lost.
ghost use Rattle.std.specs.Prelude.{◌≡◌, ◌<◌, ◌≤◌, None};
ghost use Rattle.std.specs.Option.{ForSome};
ghost use Rattle.gp_pools.specs.Allocs.{AreLeased, AreSettled, numbers_of};
ghost use Rattle.gp_pools.specs.Onu.{onus_with_settled};
ghost use Rattle.gp_pools.specs.Pool.{IsLeased, IsSettled, pool_with_all_settled};
ghost use Rattle.gp_unit.specs.Records.{record_of};
ghost use Rattle.gp_unit.specs.Rows.{row_acknowledged, row_polled, row_with_alloc};
ghost use Rattle.gp_unit.specs.Sound.{IsCounted};
ghost use Rattle.gp_unit.specs.Units.{freed_alloc, left_by_restart, retired};

use super::record::Record;
use super::retired::Retired;
use super::row::Row;
use gp_linear::NeverDropped;
use gp_pools::{AllocIds, AllocLeases, OnuIds, OnuLease};
use std::marker::Model;

/// A record with the leases of its numbers, which is what each typed unit is inside. It is no `Drop`. Contracts see the
/// record.
pub struct Leased {
    pub(super) unit: Record,
    pub(super) onu: OnuLease,
    pub(super) allocs: AllocLeases,
}

impl NeverDropped for Leased {}

impl Model for Leased {
    ghost use Rattle.gp_unit.specs.declared.record.Record.{Record as unit_record};
    ghost use Rattle.gp_unit.specs.contracts.record.Record as kept;
    ghost use Rattle.gp_unit.specs.Units.{IsLeasedUnit};

    ghost Value = { unit_record };

    ghost coded = { kept.the_row.coded };

    ghost view = { λ u. u.unit };

    ghost invariant = { λ u. IsLeasedUnit u.unit u.onu u.allocs };
}

impl Leased {
    /// Tells the record.
    pub fn unit(&self) -> Record
        ensures unit { result ≡ self.now }
        ensures counted { IsCounted result.row.phase }
        ensures waits { result.row.waiting ≤ 2 }
    {
        self.unit
    }

    /// Puts another row with the same numbers in the place of the unit's.
    pub fn with_row(self, row: Row) -> Leased
        requires onu { row.onu ≡ self.row.onu }
        requires allocs { row.allocs ≡ self.row.allocs }
        requires counted { IsCounted row.phase }
        requires waits { row.waiting ≤ 2 }
        ensures { result ≡ record_of self.serial row }
    {
        let Leased { unit, onu, allocs } = self;
        Leased {
            unit: Record { row, ..unit },
            onu,
            allocs,
        }
    }

    /// Ends the unit.
    pub fn retire(self) -> Retired
        ensures { result ≡ retired self }
    {
        let Leased { unit, onu, allocs } = self;
        Retired {
            serial: unit.serial,
            onu: Some(onu),
            allocs,
        }
    }

    /// Settles the unit's numbers in the pools, and keeps the record.
    pub fn settle(self, onus: &mut OnuIds, alloc_ids: &mut AllocIds) -> Record
        requires onu { IsLeased onus.old.pool self.row.onu }
        requires allocs { AreLeased alloc_ids.old self.row.allocs }
        ensures unit { result ≡ self }
        ensures onus { onus.new ≡ onus_with_settled onus.old self.row.onu }
        ensures allocs { alloc_ids.new ≡ pool_with_all_settled alloc_ids.old (numbers_of self.row.allocs) }
        ensures settled_onu { IsSettled onus.new.pool result.row.onu }
        ensures settled_allocs { AreSettled alloc_ids.new result.row.allocs }
    {
        let Leased { unit, onu, allocs } = self;
        onus.settle(onu);
        alloc_ids.settle_all(allocs);
        unit
    }
}
