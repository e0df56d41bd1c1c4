//! `Ranging`, a typed unit whose delay is still to be measured: it operates once it is, and after two ranging windows
//! without a result it is no more.
ghost use Rattle.std.specs.Prelude.{◌≡◌, ◌-◌, ◌<◌, ◌≤◌, ◌||◌, MatchOption, MatchResult};
ghost use Rattle.gp_pools.specs.Allocs.{AreLeased, AreSettled, numbers_of};
ghost use Rattle.gp_pools.specs.Onu.{onus_with_settled};
ghost use Rattle.gp_pools.specs.Pool.{IsLeased, IsSettled, pool_with_all_settled};
ghost use Rattle.gp_unit.specs.Records.{record_of};
ghost use Rattle.gp_unit.specs.Rows.{new_row, row_measured, row_unranged, was_seen};
ghost use Rattle.gp_unit.specs.Units.{left_by_restart, retired};

use super::leased::Leased;
use super::operating::Operating;
use super::record::Record;
use super::retired::Retired;
use super::row::{Phase, Row};
use gp_linear::NeverDropped;
use gp_ploam::Serial;
use gp_pools::{AllocIds, AllocLeases, OnuIds, OnuLease};
use gp_ranging::equalize;
use std::marker::Model;

/// A unit that has an ONU-ID and whose delay is still to be measured. It is no `Drop`: each call hands on what it
/// holds. Contracts see its record.
pub struct Ranging {
    pub(super) unit: Leased,
}

impl NeverDropped for Ranging {}

impl Model for Ranging {
    ghost use Rattle.std.specs.Prelude.{◌≡◌, true};
    ghost use Rattle.gp_unit.specs.Rows.{is_ranging};
    ghost use Rattle.gp_unit.specs.declared.record.Record.{Record as unit_record};
    ghost use Rattle.gp_unit.specs.contracts.record.Record as kept;

    ghost Value = { unit_record };

    ghost coded = { kept.the_row.coded };

    ghost view = { λ u. u.unit };

    ghost invariant = { λ u. is_ranging u.unit.row.phase ≡ true };
}

/// What is left of a unit after a ranging window that closed without a result. It is no `Drop`, as a unit is none.
pub enum RangingClosed {
    /// It is asked once more.
    Still(Ranging),
    /// It failed twice and is no more; whether anything was heard of it.
    Failed(Retired, bool),
}

impl NeverDropped for RangingClosed {}

impl Ranging {
    /// Begins to range a unit that is given this ONU-ID.
    pub fn begin(serial: Serial, onu: OnuLease) -> Ranging
        ensures { result ≡ record_of serial (new_row onu) }
    {
        let row = Row::ranging(onu.number());
        let allocs = AllocLeases::none();
        Ranging {
            unit: Leased {
                unit: Record { serial, row },
                onu,
                allocs,
            },
        }
    }

    /// Ends the ranging with the unit's round-trip delay, in bit times: it operates, unless it is farther away than
    /// `teqd` allows, and then it is handed back as it was.
    pub fn measured(self, teqd: u32, rtd: u32) -> Result<Operating, Ranging>
        ensures { MatchResult result
            (λ unit. (rtd ≤ teqd) × (unit ≡ record_of self.serial (row_measured self.row (teqd - rtd))))
            (λ unit. (teqd < rtd) × (unit ≡ self)) }
    {
        let Some(eqd) = equalize(teqd, rtd) else {
            return Err(self);
        };
        let Ranging { unit } = self;
        let row = unit.unit().row.measured(eqd);
        Ok(Operating {
            unit: unit.with_row(row),
        })
    }

    /// Counts a ranging window that closed without a result, in which something was heard or not. After the second
    /// the unit is no more.
    pub fn window_closed(self, seen: bool) -> RangingClosed
        ensures { MatchOption (row_unranged self.row seen self.row.phase)
            (result ≡ RangingClosed.Failed (retired self) (was_seen self.row.phase || seen))
            (λ row. result ≡ RangingClosed.Still (record_of self.serial row)) }
    {
        let Ranging { unit } = self;
        let row = unit.unit().row;
        match row.unranged(seen) {
            Some(row) => RangingClosed::Still(Ranging {
                unit: unit.with_row(row),
            }),
            None => RangingClosed::Failed(unit.retire(), row.phase.was_seen() || seen),
        }
    }

    /// Begins the unit anew with its ONU-ID. Its further Alloc-IDs are to be given up.
    pub fn restart(self) -> (Ranging, Retired)
        ensures unit { result.0 ≡ record_of self.serial (new_row self.row.onu) }
        ensures rest { result.1 ≡ left_by_restart self }
    {
        let Ranging { unit } = self;
        let Leased { unit, onu, allocs } = unit;
        let rest = Retired {
            serial: unit.serial,
            onu: None,
            allocs,
        };
        (Ranging::begin(unit.serial, onu), rest)
    }

    /// Ends the unit.
    pub fn retire(self) -> Retired
        ensures { result ≡ retired self }
    {
        let Ranging { unit } = self;
        unit.retire()
    }

    /// Settles the unit's numbers in the pools, and keeps its record.
    pub fn settle(self, onus: &mut OnuIds, alloc_ids: &mut AllocIds) -> Record
        requires onu { IsLeased onus.old.pool self.row.onu }
        requires allocs { AreLeased alloc_ids.old self.row.allocs }
        ensures unit { result ≡ self }
        ensures onus { onus.new ≡ onus_with_settled onus.old self.row.onu }
        ensures allocs { alloc_ids.new ≡ pool_with_all_settled alloc_ids.old (numbers_of self.row.allocs) }
        ensures settled_onu { IsSettled onus.new.pool result.row.onu }
        ensures settled_allocs { AreSettled alloc_ids.new result.row.allocs }
    {
        let Ranging { unit } = self;
        unit.settle(onus, alloc_ids)
    }
}
