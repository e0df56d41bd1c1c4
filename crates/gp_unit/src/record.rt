//! What a port keeps of a unit between calls, and the typed unit that is made of it by leasing its numbers again:
//! `wake`, the inverse of `settle`.
ghost use Rattle.std.specs.Prelude.{◌≡◌, ◌≤◌, if◌then◌else◌};
ghost use Rattle.gp_pools.specs.Allocs.{AreLeased, AreSettled, numbers_of};
ghost use Rattle.gp_pools.specs.Onu.{onus_with_lease_again};
ghost use Rattle.gp_pools.specs.Pool.{IsLeased, IsSettled, pool_with_all_leased_again};
ghost use Rattle.gp_unit.specs.Rows.{is_ranging};
ghost use Rattle.gp_unit.specs.Sound.{IsCounted};

use super::leased::Leased;
use super::operating::Operating;
use super::ranging::Ranging;
use super::row::Row;
use gp_linear::NeverDropped;
use gp_ploam::Serial;
use gp_pools::{AllocIds, OnuIds};

/// What a port keeps of a unit: its serial number and its row. Plain data: its numbers are settled in the pools.
#[derive(Clone, Copy, Debug, PartialEq, Eq)]
pub struct Record {
    /// The unit's serial number.
    pub serial: Serial,
    /// What the port knows of it.
    pub row: Row,
}

/// A unit that was made of its record again. It is no `Drop`, as a unit is none.
pub enum Awake {
    /// Its delay is still to be measured.
    Ranging(Ranging),
    /// It is polled.
    Operating(Operating),
}

impl NeverDropped for Awake {}

impl Record {
    /// Leases the numbers of the record again, and makes its unit. It is the inverse of `settle`, with the same pools.
    pub fn wake(self, onus: &mut OnuIds, alloc_ids: &mut AllocIds) -> Awake
        requires onu { IsSettled onus.old.pool self.row.onu }
        requires allocs { AreSettled alloc_ids.old self.row.allocs }
        requires counted { IsCounted self.row.phase }
        requires waits { self.row.waiting ≤ 2 }
        ensures unit { result ≡ (if is_ranging self.row.phase then Awake.Ranging self else Awake.Operating self) }
        ensures onus { onus.new ≡ onus_with_lease_again onus.old self.row.onu }
        ensures allocs { alloc_ids.new ≡ pool_with_all_leased_again alloc_ids.old (numbers_of self.row.allocs) }
        ensures leased_onu { IsLeased onus.new.pool self.row.onu }
        ensures leased_allocs { AreLeased alloc_ids.new self.row.allocs }
    {
        let row = self.row;
        let onu = onus.lease_of(row.onu);
        let allocs = alloc_ids.leases_of(row.allocs);
        let unit = Leased {
            unit: self,
            onu,
            allocs,
        };
        if row.phase.is_ranging() {
            Awake::Ranging(Ranging { unit })
        } else {
            Awake::Operating(Operating { unit })
        }
    }
}
