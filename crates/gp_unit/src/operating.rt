//! `Operating`, a typed unit that has its equalization delay: what may happen to such a unit, and to no other.
ghost use Rattle.std.specs.Prelude.{◌≡◌, ◌<◌, ◌≤◌, IsSome, IsTrue, MatchOption, None};
ghost use Rattle.std.specs.Option.{ForSome};
ghost use Rattle.std.specs.FinMap as map;
ghost use Rattle.gp_pools.specs.Allocs.{AreLeased, AreSettled, numbers_of};
ghost use Rattle.gp_pools.specs.Onu.{onus_with_settled};
ghost use Rattle.gp_pools.specs.Slots.{max_allocs};
ghost use Rattle.gp_pools.specs.Pool.{IsLeased, IsSettled, pool_with_all_settled};
ghost use Rattle.gp_alarms.specs.declared.poll.Outcome.TheVariants.{Acked};
ghost use Rattle.gp_unit.specs.Records.{record_of};
ghost use Rattle.gp_unit.specs.Rows.{alarm_polled, holds_alloc, row_acknowledged, row_polled, row_popped_up, row_releasing, row_with_alloc};
ghost use Rattle.gp_unit.specs.Units.{freed_alloc, retired};

use super::leased::Leased;
use super::ranging::Ranging;
use super::record::Record;
use super::retired::Retired;
use gp_alarms::{AlarmKind, Outcome};
use gp_linear::NeverDropped;
use gp_pools::{AllocIds, AllocLease, OnuIds};
use std::marker::Model;

/// A unit that has its equalization delay and is polled. It is no `Drop`: each call hands on what it holds. Contracts
/// see its record.
pub struct Operating {
    pub(super) unit: Leased,
}

impl NeverDropped for Operating {}

impl Model for Operating {
    ghost use Rattle.std.specs.Prelude.{◌≡◌, false};
    ghost use Rattle.gp_unit.specs.Rows.{is_ranging};
    ghost use Rattle.gp_unit.specs.declared.record.Record.{Record as unit_record};
    ghost use Rattle.gp_unit.specs.contracts.record.Record as kept;

    ghost Value = { unit_record };

    ghost coded = { kept.the_row.coded };

    ghost view = { λ u. u.unit };

    ghost invariant = { λ u. is_ranging u.unit.row.phase ≡ false };
}

/// What is left of a unit after a poll window. It is no `Drop`, as a unit is none.
pub enum PollClosed {
    /// It is polled on.
    Still(Operating),
    /// It is lost, with this alarm.
    Lost(Retired, AlarmKind),
}

impl NeverDropped for PollClosed {}

impl Operating {
    /// Counts a poll window of the unit that ended so: at the limit of a count the unit is lost.
    pub fn poll_closed(self, outcome: Outcome) -> PollClosed
        ensures { MatchOption (alarm_polled self.row outcome)
            (result ≡ PollClosed.Still (record_of self.serial (row_polled self.row outcome)))
            (λ alarm. result ≡ PollClosed.Lost (retired self) alarm) }
    {
        let Operating { unit } = self;
        match unit.unit().row.polled(outcome) {
            (row, None) => PollClosed::Still(Operating {
                unit: unit.with_row(row),
            }),
            (_, Some(alarm)) => PollClosed::Lost(unit.retire(), alarm),
        }
    }

    /// Gives the unit one more Alloc-ID, which it has to acknowledge.
    pub fn alloc(self, lease: AllocLease) -> Operating
        requires room { map.len self.row.allocs < max_allocs }
        requires new { map.get self.row.allocs lease ≡ None }
        requires idle { self.row.pending ≡ None }
        ensures { result ≡ record_of self.serial (row_with_alloc self.row lease) }
    {
        let Operating { unit } = self;
        let Leased {
            unit,
            onu,
            mut allocs,
        } = unit;
        let row = unit.row.with_alloc(lease.number());
        allocs.hold(lease);
        Operating {
            unit: Leased {
                unit: Record { row, ..unit },
                onu,
                allocs,
            },
        }
    }

    /// Begins to take back one of the unit's Alloc-IDs, which it has to acknowledge.
    pub fn dealloc(self, alloc: u16) -> Operating
        requires held { IsTrue (holds_alloc alloc self.row) }
        requires idle { self.row.pending ≡ None }
        ensures { result ≡ record_of self.serial (row_releasing self.row alloc) }
    {
        let Operating { unit } = self;
        let Leased {
            unit,
            onu,
            mut allocs,
        } = unit;
        let row = unit.row.releasing(alloc);
        allocs.leave(alloc);
        Operating {
            unit: Leased {
                unit: Record { row, ..unit },
                onu,
                allocs,
            },
        }
    }

    /// Counts a poll window that ended with the unit's Acknowledge of the pending Alloc-ID. The lease of one that was
    /// leaving is handed out.
    pub fn acked(self) -> (Operating, Option<AllocLease>)
        requires pending { IsSome self.row.pending }
        ensures unit { ForSome self.row.pending
            (λ alloc. result.0 ≡ record_of self.serial (row_acknowledged (row_polled self.row Acked) alloc)) }
        ensures freed { ForSome self.row.pending
            (λ alloc. result.1 ≡ freed_alloc alloc (map.get self.row.allocs alloc)) }
    {
        let Operating { unit } = self;
        let Leased {
            unit,
            onu,
            mut allocs,
        } = unit;
        let Some(alloc) = unit.row.pending else {
            unreachable!();
        };
        let (row, _) = unit.row.polled(Outcome::Acked);
        let freed = match allocs.get(alloc) {
            Some(true) => Some(allocs.free(alloc)),
            _ => None,
        };
        let unit = Leased {
            unit: Record {
                row: row.acknowledged(alloc),
                ..unit
            },
            onu,
            allocs,
        };
        (Operating { unit }, freed)
    }

    /// Makes the unit range from the start (POPUP to all units); it keeps its numbers.
    pub fn popup_all(self) -> Ranging
        ensures { result ≡ record_of self.serial (row_popped_up self.row self.row.phase) }
    {
        let Operating { unit } = self;
        let row = unit.unit().row.popped_up();
        Ranging {
            unit: unit.with_row(row),
        }
    }

    /// Ends the unit.
    pub fn retire(self) -> Retired
        ensures { result ≡ retired self }
    {
        let Operating { unit } = self;
        unit.retire()
    }

    /// Settles the unit's numbers in the pools, and keeps its record.
    pub fn settle(self, onus: &mut OnuIds, alloc_ids: &mut AllocIds) -> Record
        requires onu { IsLeased onus.old.pool self.row.onu }
        requires allocs { AreLeased alloc_ids.old self.row.allocs }
        ensures unit { result ≡ self }
        ensures onus { onus.new ≡ onus_with_settled onus.old self.row.onu }
        ensures allocs { alloc_ids.new ≡ pool_with_all_settled alloc_ids.old (numbers_of self.row.allocs) }
        ensures settled_onu { IsSettled onus.new.pool result.row.onu }
        ensures settled_allocs { AreSettled alloc_ids.new result.row.allocs }
    {
        let Operating { unit } = self;
        unit.settle(onus, alloc_ids)
    }
}
