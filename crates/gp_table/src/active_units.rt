//! The units with the pools of their numbers, as a port sees them: a finite map of rows. Here alone a unit's number is
//! taken or freed, so that those of the units are out in the pools, and no others.
ghost use Rattle.std.specs.Prelude.{◌≡◌, ℕ, ◌-◌, ◌<◌, ◌≤◌, Bool, IfNone, IfOk, IfSome, IsSome, IsTrue, None, Some, false, get_or, map as list_map, true};
ghost use Rattle.std.specs.Option.{ForSome};
ghost use Rattle.std.specs.FinMap as map;
ghost use Rattle.std.specs.FinSet as set;
ghost use Rattle.gp_alarms.specs.declared.poll.Outcome.TheVariants.{Acked};
ghost use Rattle.gp_ploam.specs.declared.message.Serial.{Serial};
ghost use Rattle.gp_ploam.specs.OnuIds.{last_onu, onu_ids};
ghost use Rattle.gp_pools.specs.Limits.{last_alloc_id, max_quarantine};
ghost use Rattle.gp_pools.specs.Pool.{IsLeased};
ghost use Rattle.gp_pools.specs.Slots.{max_allocs};
ghost use Rattle.gp_unit.specs.declared.row.Row.{Row};
ghost use Rattle.gp_unit.specs.Records.{row_of};
ghost use Rattle.gp_unit.specs.Rows.{has_alloc, holds_alloc, is_ranging, new_row, row_acknowledged, row_counted, row_polled, row_releasing, row_with_alloc};
ghost use Rattle.gp_unit.specs.Sound.{IsSoundRow};
ghost use Rattle.gp_unit.specs.Units.{retired as retired_unit};
ghost use Rattle.gp_table.specs.Awake.{HasNumbersOf, IsOperatingAwake, record_awake};
ghost use Rattle.gp_table.specs.Active.{IsFreeAllocId, IsFreeOnuId, KeepsNumbers, entry_of_active, no_active_units, pool_freed, with_row, without};
ghost use Rattle.gp_machine.specs.State.{HasRow, IsLeastRanging, IsNextPoll};
ghost use Rattle.gp_table.specs.Rows.{HasOnuId, count_operating, popped_rows};

use super::unit_table::{UnitEntry, UnitTable};
use gp_alarms::PollCounts;
use gp_ploam::Serial;
use gp_pools::{AllocIds, AllocLease, OnuIds};
use gp_unit::{Awake, Operating, Ranging, Record, Retired, Row};
use std::alloc::{AllocError, Global};
use std::marker::Model;

/// How many numbers a port has for its units.
#[derive(Clone, Copy, Debug)]
pub struct NumberLimits {
    /// How many units may be active, at most 254.
    pub max_units: u8,
    /// The greatest Alloc-ID, at most 4095.
    pub alloc_last: u16,
    /// For how many frames a freed ONU-ID is given to no other unit, at most 8000.
    pub quarantine: u16,
}

/// The active units of a port with the numbers that they have. Between calls no number is leased: each that a unit
/// has is settled in its pool, and no other is. After `begin` it takes no memory.
#[derive(Drop)]
pub struct ActiveUnits {
    table: UnitTable,
    onus: OnuIds,
    allocs: AllocIds,
}

impl Model for ActiveUnits {
    ghost use Rattle.gp_machine.specs.Codes.{port_codes};
    ghost use Rattle.gp_table.specs.Active.{ActiveState, AreTogether, active_of};

    ghost Value = { ActiveState };

    ghost coded = { Prim.hlevel port_codes };

    ghost view = { λ a. active_of a.table a.onus a.allocs };

    ghost invariant = { λ a. AreTogether a.table.rows a.onus a.allocs };
}

impl ActiveUnits {
    /// Makes a table that admits these serial numbers, with no units. Fails only where there is no memory.
    pub fn begin(
        alloc: Global,
        admitted: &[Serial],
        limits: NumberLimits,
    ) -> Result<ActiveUnits, AllocError>
        requires units { limits.max_units ≤ onu_ids }
        requires allocs { limits.alloc_last ≤ last_alloc_id }
        requires frames { limits.quarantine ≤ max_quarantine }
        ensures { IfOk result
            (λ units. units ≡ no_active_units admitted.now limits.max_units limits.alloc_last limits.quarantine) }
    {
        let table = UnitTable::begin(alloc, admitted)?;
        Ok(ActiveUnits {
            table,
            onus: OnuIds::new(limits.max_units, limits.quarantine),
            allocs: AllocIds::new(limits.alloc_last),
        })
    }

    /// Makes a second table of the same units, with the same numbers free and cooling. Fails only where there is no
    /// memory.
    pub fn try_clone(&self, alloc: Global) -> Result<ActiveUnits, AllocError>
        ensures { IfOk result (λ units. units ≡ self.now) }
    {
        let table = self.table.try_clone(alloc)?;
        Ok(ActiveUnits {
            table,
            onus: self.onus.copy(),
            allocs: self.allocs.copy(),
        })
    }

    /// Tells what the table has for a serial number, found by one search; None where it isn't admitted.
    pub fn look_up(&self, serial: &Serial) -> Option<UnitEntry>
        ensures { result ≡ entry_of_active self.now serial.now }
    {
        self.table.look_up(serial)
    }

    /// Tells whether a unit with this serial number may be activated on the port.
    pub fn is_admitted(&self, serial: &Serial) -> bool
        ensures { result ≡ set.contains self.now.admitted serial.now }
    {
        self.table.is_admitted(serial)
    }

    /// Tells whether the serial number is disabled.
    pub fn is_disabled(&self, serial: &Serial) -> bool
        ensures { result ≡ set.contains self.now.disabled serial.now }
    {
        self.table.is_disabled(serial)
    }

    /// Tells the row of the unit with this serial number, if it is active.
    pub fn row_of(&self, serial: &Serial) -> Option<Row>
        ensures { result ≡ map.get self.now.rows serial.now }
    {
        self.table.row_of(serial)
    }

    /// Counts the active units.
    pub fn len(&self) -> usize
        ensures { result ≡ map.len self.now.rows }
    {
        self.table.len()
    }

    /// Tells the record of the unit with this ONU-ID.
    pub fn holder(&self, onu: u8) -> Option<&Record>
        ensures none { IfNone result ((serial : Serial) → HasOnuId self.now.rows serial onu → ⊥) }
        ensures some { IfSome result
            (λ unit. (unit.now.row.onu ≡ onu) × HasRow self.now.rows unit.now.serial (row_of unit.now)) }
    {
        self.table.holder(onu)
    }

    /// Tells the least ONU-ID of a ranging unit.
    pub fn least_ranging(&self) -> Option<u8>
        ensures { IsLeastRanging self.now.rows result }
    {
        self.table.least_ranging()
    }

    /// Tells the ONU-ID of the operating unit that is polled next after the last polled one.
    pub fn next_poll(&self, last: Option<u8>) -> Option<u8>
        ensures { IsNextPoll self.now.rows last result }
    {
        self.table.next_poll(last)
    }

    /// Tells an ONU-ID that a new unit may get: the wished one where it is free, else the least; None exactly where
    /// there is none.
    pub fn free_onu(&self, wished: Option<u8>) -> Option<u8>
        ensures none { IfNone result ((onu : ℕ) → IsFreeOnuId self.now onu → ⊥) }
        ensures free { IfSome result (IsFreeOnuId self.now) }
        ensures wished { ForSome wished (λ onu. IsFreeOnuId self.now onu → result ≡ Some onu) }
    {
        if let Some(onu) = wished {
            if self.onus.has_room() && self.onus.is_free(onu) {
                return Some(onu);
            }
        }
        self.onus.free_one()
    }

    /// Tells for how many frames more an ONU-ID, 0 to 253, cools; 0 where it doesn't.
    pub fn frames_left(&self, onu: u8) -> u16
        requires { onu ≤ last_onu }
        ensures { result ≡ get_or self.now.cooling onu 0 }
    {
        match self.onus.frames_left(onu) {
            Some(left) => left,
            None => 0,
        }
    }

    /// Tells a further Alloc-ID that a unit may get: the wished one where it is free, else the least; None exactly
    /// where there is none.
    pub fn free_alloc(&self, wished: Option<u16>) -> Option<u16>
        ensures none { IfNone result ((alloc : ℕ) → IsFreeAllocId self.now alloc → ⊥) }
        ensures free { IfSome result (IsFreeAllocId self.now) }
        ensures wished { ForSome wished (λ alloc. IsFreeAllocId self.now alloc → result ≡ Some alloc) }
    {
        if let Some(alloc) = wished {
            if self.allocs.is_free(alloc) {
                return Some(alloc);
            }
        }
        self.allocs.free_one()
    }

    /// Adds a unit, which begins to range with this ONU-ID.
    pub fn add(&mut self, serial: Serial, onu: u8)
        requires free { IsFreeOnuId self.old onu }
        requires admitted { IsTrue (set.contains self.old.admitted serial) }
        requires new { map.get self.old.rows serial ≡ None }
        ensures { self.new ≡ with_row self.old serial (new_row onu) }
    {
        let lease = self.onus.lease(onu);
        let unit = Ranging::begin(serial, lease).settle(&mut self.onus, &mut self.allocs);
        self.table.insert(unit);
    }

    /// Puts another row in the place of a unit's. The unit keeps its numbers.
    pub fn set_row(&mut self, serial: Serial, row: Row)
        requires { KeepsNumbers self.old.rows serial row }
        ensures { self.new ≡ with_row self.old serial row }
    {
        self.table.replace(Record { serial, row });
    }

    /// Puts these counts in the place of a unit's. All else of the unit stays as it is.
    pub fn set_counts(&mut self, unit: Record, counts: PollCounts)
        requires { HasRow self.old.rows unit.serial unit.row }
        ensures { self.new ≡ with_row self.old unit.serial (row_counted unit.row counts) }
    {
        self.table.set_counts(unit, counts);
    }

    /// Gives an operating unit, which has nothing pending, one more Alloc-ID, which it has to acknowledge.
    pub fn add_alloc(&mut self, unit: Record, alloc: u16)
        requires active { HasRow self.old.rows unit.serial unit.row }
        requires sound { IsSoundRow self.old.alloc_last unit.row }
        requires operating { is_ranging unit.row.phase ≡ false }
        requires idle { unit.row.pending ≡ None }
        requires room { map.len unit.row.allocs < max_allocs }
        requires free { IsFreeAllocId self.old alloc }
        ensures { self.new ≡ with_row self.old unit.serial (row_with_alloc unit.row alloc) }
    {
        let lease = self.allocs.lease(alloc);
        let waked = operating(unit.wake(&mut self.onus, &mut self.allocs));
        let unit = waked.alloc(lease).settle(&mut self.onus, &mut self.allocs);
        self.table.replace(unit);
    }

    /// Makes a unit give back one of its Alloc-IDs, which it has to acknowledge; until then it has it.
    pub fn release_alloc(&mut self, unit: Record, alloc: u16)
        requires active { HasRow self.old.rows unit.serial unit.row }
        requires held { IsTrue (holds_alloc alloc unit.row) }
        ensures { self.new ≡ with_row self.old unit.serial (row_releasing unit.row alloc) }
    {
        self.set_row(unit.serial, unit.row.releasing(alloc));
    }

    /// Counts a poll window that ended with the unit's Acknowledge of the pending Alloc-ID. One that it gave back is
    /// free.
    pub fn acknowledge(&mut self, unit: Record)
        requires active { HasRow self.old.rows unit.serial unit.row }
        requires sound { IsSoundRow self.old.alloc_last unit.row }
        requires operating { is_ranging unit.row.phase ≡ false }
        requires pending { IsSome unit.row.pending }
        ensures { ForSome unit.row.pending
            (λ alloc. self.new ≡ with_row self.old unit.serial (row_acknowledged (row_polled unit.row Acked) alloc)) }
    {
        let (acked, freed) = operating(unit.wake(&mut self.onus, &mut self.allocs)).acked();
        let unit = acked.settle(&mut self.onus, &mut self.allocs);
        give_back_freed(&mut self.allocs, freed);
        self.table.replace(unit);
    }

    /// Begins a unit anew with its ONU-ID; its Alloc-IDs are free.
    pub fn restart(&mut self, unit: Record)
        requires active { HasRow self.old.rows unit.serial unit.row }
        requires sound { IsSoundRow self.old.alloc_last unit.row }
        ensures { self.new ≡ with_row self.old unit.serial (new_row unit.row.onu) }
    {
        let waked = unit.wake(&mut self.onus, &mut self.allocs);
        let (begun, rest) = ranging(waked).restart();
        rest.give_up(&mut self.onus, &mut self.allocs);
        let unit = begun.settle(&mut self.onus, &mut self.allocs);
        self.table.replace(unit);
    }

    /// Removes a unit, if there is one with this serial number. Its numbers are free; the ONU-ID begins to cool.
    pub fn remove(&mut self, serial: &Serial)
        requires sound { (row : Row) → HasRow self.old.rows serial.now row → IsSoundRow self.old.alloc_last row }
        ensures { self.new ≡ without self.old serial.now (map.get self.old.rows serial.now) }
    {
        if let Some(unit) = self.table.remove(serial) {
            let waked = unit.wake(&mut self.onus, &mut self.allocs);
            retired(waked).give_up(&mut self.onus, &mut self.allocs);
        }
    }

    /// Makes every operating unit range from the start, with the numbers that it has, and tells how many there were.
    pub fn pop_up_all(&mut self) -> usize
        ensures rows { self.new ≡ record self.old { rows = popped_rows self.old.rows } }
        ensures count { result ≡ count_operating self.old.rows }
    {
        self.table.pop_up()
    }

    /// Lets a frame go by: each cooling ONU-ID has a frame less. Where none leaves none is looked at.
    pub fn tick(&mut self)
        ensures { self.new ≡ record self.old { cooling = list_map (λ left. left - 1) self.old.cooling } }
    {
        self.onus.tick();
    }

    /// Disables an admitted serial number. Its unit, if it has one, is not touched.
    pub fn disable(&mut self, serial: &Serial)
        requires admitted { IsTrue (set.contains self.old.admitted serial.now) }
        ensures { self.new ≡ record self.old { disabled = set.insert self.old.disabled serial.now } }
    {
        self.table.disable(serial);
    }

    /// Enables a serial number; one that isn't disabled stays as it is.
    pub fn enable(&mut self, serial: &Serial)
        ensures { self.new ≡ record self.old { disabled = set.remove self.old.disabled serial.now } }
    {
        self.table.enable(serial);
    }

    /// Enables every serial number. This walks over all that are admitted.
    pub fn enable_all(&mut self)
        ensures { self.new ≡ record self.old { disabled = set.empty } }
    {
        self.table.enable_all();
    }
}

/// Gives back the lease of an Alloc-ID, if one was freed.
fn give_back_freed(allocs: &mut AllocIds, freed: Option<AllocLease>)
    requires { ForSome freed (IsLeased allocs.old) }
    ensures { allocs.new ≡ pool_freed allocs.old freed }
{
    match freed {
        Some(lease) => allocs.give_back(lease),
        None => {}
    }
}

/// The unit, which is operating.
fn operating(unit: Awake) -> Operating
    requires { IsOperatingAwake unit }
    ensures { result ≡ record_awake unit }
{
    match unit {
        Awake::Operating(unit) => unit,
        Awake::Ranging(_unit) => unreachable!(),
    }
}

/// The unit, which ranges from the start if it was operating.
fn ranging(unit: Awake) -> Ranging
    ensures { HasNumbersOf result (record_awake unit) }
{
    match unit {
        Awake::Ranging(unit) => unit,
        Awake::Operating(unit) => unit.popup_all(),
    }
}

/// What is left of the unit.
fn retired(unit: Awake) -> Retired
    ensures { result ≡ retired_unit (record_awake unit) }
{
    match unit {
        Awake::Ranging(unit) => unit.retire(),
        Awake::Operating(unit) => unit.retire(),
    }
}
