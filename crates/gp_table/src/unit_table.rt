//! The records of the units in a slab, found by serial number or by ONU-ID, and the sets of the ONU-IDs that range and
//! that operate, which tell whose turn it is. It knows no pools.
ghost use Rattle.std.specs.Prelude.{◌≡◌, ℕ, ◌<◌, ◌≤◌, ◌≢◌, IfOk, IfSome, IfNone, IsSome, IsTrue, None, Some, if◌then◌else◌, false, ◌+◌};
ghost use Rattle.std.specs.Option.{option_map};
ghost use Rattle.std.specs.FinMap as map;
ghost use Rattle.std.specs.FinSet as set;
ghost use Rattle.gp_ploam.specs.declared.message.Serial.{Serial};
ghost use Rattle.gp_ploam.specs.OnuIds.{last_onu, onu_ids};
ghost use Rattle.gp_numbers.specs.Least.{IsLeastFrom};
ghost use Rattle.gp_unit.specs.declared.row.Row.{Row};
ghost use Rattle.gp_unit.specs.Records.{row_of, record_of};
ghost use Rattle.gp_unit.specs.Rows.{row_counted};
ghost use Rattle.gp_machine.specs.State.{HasRow, IsLeast, IsLeastRanging, IsNextPoll, Operates};
ghost use Rattle.gp_table.specs.Rows.{HasOnuId, IsInPhase, PopsUpOne, count_operating, popped_rows};
ghost use Rattle.gp_table.specs.Table.{row_in, slot_at};
ghost use Rattle.gp_table.specs.Units.{entry_for, no_units};

use super::admission_index::AdmissionIndex;
use gp_alarms::PollCounts;
use gp_numbers::NumberSet;
use gp_ploam::{ONU_IDS, Serial};
use gp_unit::{Phase, Record, Row};
use slab::Slab;
use std::alloc::{AllocError, Global};
use std::marker::Model;

/// A place for each ONU-ID.
const PLACES: usize = ONU_IDS as usize;

/// What the table has for an admitted serial number.
#[derive(Clone, Copy, Debug)]
pub struct UnitEntry {
    /// Whether the serial number is disabled.
    pub disabled: bool,
    /// The row of its unit, if that is active.
    pub row: Option<Row>,
}

/// The admitted serial numbers of a port, which stay the same from `begin` on, with the units that are active and the
/// serial numbers that are disabled. A unit is found by its serial number or its ONU-ID. After `begin` it takes no
/// memory.
#[derive(Drop)]
pub struct UnitTable {
    records: Slab<Record>,
    admissions: AdmissionIndex,
    /// The key of the record of each ONU-ID.
    onus: Vec<Option<usize>>,
    ranging: NumberSet<0, 4>,
    operating: NumberSet<0, 4>,
}

impl Model for UnitTable {
    ghost use Rattle.gp_machine.specs.Codes.{port_codes};
    ghost use Rattle.gp_table.specs.Index.{keys_of};
    ghost use Rattle.gp_table.specs.Table.{IsKeptTable, units_of};
    ghost use Rattle.gp_table.specs.Units.{Units};

    ghost Value = { Units };

    ghost coded = { Prim.hlevel port_codes };

    ghost view = { λ t. units_of t.records.slots t.admissions };

    ghost invariant = { λ t. IsKeptTable t.records.slots t.records.capacity
        (keys_of t.admissions) t.onus.items t.ranging t.operating };
}

/// The row in the record with this key, if there is a key.
fn row_at(records: &Slab<Record>, key: Option<usize>) -> Option<Row>
    requires { IfSome key (λ key. IsSome (slot_at records.now.slots key)) }
    ensures { result ≡ option_map (λ key. row_in (slot_at records.now.slots key)) key }
{
    match key {
        Some(key) => Some(records[key].row),
        None => None,
    }
}

/// Notes whether the unit with this ONU-ID is ranging or operating.
fn mark(ranging: &mut NumberSet<0, 4>, operating: &mut NumberSet<0, 4>, onu: u8, ranges: bool)
    ensures ranging { ranging.new ≡ (if ranges then set.insert ranging.old onu else set.remove ranging.old onu) }
    ensures operating { operating.new
        ≡ (if ranges then set.remove operating.old onu else set.insert operating.old onu) }
{
    let onu = u16::from(onu);
    if ranges {
        ranging.insert(onu);
        operating.remove(onu);
    } else {
        ranging.remove(onu);
        operating.insert(onu);
    }
}

impl UnitTable {
    /// A table that admits these serial numbers, with no units, and with room for as many as there are ONU-IDs. Fails
    /// only where there is no memory.
    pub fn begin(alloc: Global, admitted: &[Serial]) -> Result<UnitTable, AllocError>
        ensures { IfOk result (λ table. table ≡ no_units admitted.now) }
    {
        let records = Slab::with_capacity(alloc, PLACES)?;
        let admissions = AdmissionIndex::begin(alloc, admitted)?;
        let onus = vec![in alloc; None; PLACES]?;
        Ok(UnitTable {
            records,
            admissions,
            onus,
            ranging: NumberSet::new(),
            operating: NumberSet::new(),
        })
    }

    /// Makes a second table of the same units, with as much room. Fails only where there is no memory.
    pub fn try_clone(&self, alloc: Global) -> Result<UnitTable, AllocError>
        ensures { IfOk result (λ table. table ≡ self.now) }
    {
        let mut records = self.records.clone()?;
        records.reserve(PLACES.saturating_sub(records.len()))?;
        let admissions = self.admissions.try_clone(alloc)?;
        let onus = self.onus.as_slice().to_vec(alloc)?;
        Ok(UnitTable {
            records,
            admissions,
            onus,
            ranging: self.ranging.union(&self.ranging),
            operating: self.operating.union(&self.operating),
        })
    }

    /// What the table has for a serial number, found by one search; None where it isn't admitted.
    pub fn look_up(&self, serial: &Serial) -> Option<UnitEntry>
        ensures { result ≡ entry_for self.now serial.now }
    {
        match self.admissions.get(serial) {
            Some(admission) => Some(UnitEntry {
                disabled: admission.disabled,
                row: row_at(&self.records, admission.key),
            }),
            None => None,
        }
    }

    /// Whether a unit with this serial number may be activated on the port.
    pub fn is_admitted(&self, serial: &Serial) -> bool
        ensures { result ≡ set.contains self.now.admitted serial.now }
    {
        self.admissions.get(serial).is_some()
    }

    /// Whether the serial number is disabled.
    pub fn is_disabled(&self, serial: &Serial) -> bool
        ensures { result ≡ set.contains self.now.disabled serial.now }
    {
        match self.admissions.get(serial) {
            Some(admission) => admission.disabled,
            None => false,
        }
    }

    /// The row of the unit with this serial number, if it is active.
    pub fn row_of(&self, serial: &Serial) -> Option<Row>
        ensures { result ≡ map.get self.now.rows serial.now }
    {
        match self.admissions.get(serial) {
            Some(admission) => row_at(&self.records, admission.key),
            None => None,
        }
    }

    /// How many units there are.
    pub fn len(&self) -> usize
        ensures { result ≡ map.len self.now.rows }
    {
        self.records.len()
    }

    /// The record of the unit with this ONU-ID.
    pub fn holder(&self, onu: u8) -> Option<&Record>
        ensures none { IfNone result ((serial : Serial) → HasOnuId self.now.rows serial onu → ⊥) }
        ensures some { IfSome result
            (λ unit. (unit.now.row.onu ≡ onu) × HasRow self.now.rows unit.now.serial (row_of unit.now)) }
    {
        let onus = self.onus.as_slice();
        let place = usize::from(onu);
        if place >= PLACES {
            return None;
        }
        match onus[place] {
            Some(key) => self.records.get(key),
            None => None,
        }
    }

    /// Adds a unit, whose ONU-ID no other has.
    pub fn insert(&mut self, unit: Record)
        requires room { map.len self.old.rows < onu_ids }
        requires admitted { IsTrue (set.contains self.old.admitted unit.serial) }
        requires new { map.get self.old.rows unit.serial ≡ None }
        requires low { unit.row.onu ≤ last_onu }
        requires unused { (serial : Serial) → HasOnuId self.old.rows serial unit.row.onu → ⊥ }
        ensures { self.new ≡ record self.old { rows = map.insert self.old.rows unit.serial (row_of unit) } }
    {
        let serial = unit.serial;
        let onu = unit.row.onu;
        mark(
            &mut self.ranging,
            &mut self.operating,
            onu,
            unit.row.phase.is_ranging(),
        );
        let key = self.records.insert_reserved(unit);
        self.admissions.set_key(&serial, key);
        self.onus[usize::from(onu)] = Some(key);
    }

    /// Puts another record in the place of a unit's. The unit keeps its ONU-ID.
    pub fn replace(&mut self, unit: Record)
        requires { HasOnuId self.old.rows unit.serial unit.row.onu }
        ensures { self.new ≡ record self.old { rows = map.insert self.old.rows unit.serial (row_of unit) } }
    {
        mark(
            &mut self.ranging,
            &mut self.operating,
            unit.row.onu,
            unit.row.phase.is_ranging(),
        );
        match self.onus[usize::from(unit.row.onu)] {
            Some(key) => self.records[key] = unit,
            None => unreachable!(),
        }
    }

    /// Puts these counts in the place of a unit's. All else of the unit stays as it is, and no set of ONU-IDs is
    /// touched.
    pub fn set_counts(&mut self, unit: Record, counts: PollCounts)
        requires { HasRow self.old.rows unit.serial (row_of unit) }
        ensures { self.new
            ≡ record self.old { rows = map.insert self.old.rows unit.serial (row_counted unit.row counts) } }
    {
        match self.onus[usize::from(unit.row.onu)] {
            Some(key) => self.records[key].row.set_counts(counts),
            None => unreachable!(),
        }
    }

    /// Takes a unit out, where there is one with this serial number.
    pub fn remove(&mut self, serial: &Serial) -> Option<Record>
        ensures unit { result ≡ option_map (record_of serial.now) (map.get self.old.rows serial.now) }
        ensures rest { self.new ≡ record self.old { rows = map.remove self.old.rows serial.now } }
    {
        match self.admissions.take_key(serial) {
            Some(key) => {
                let unit = self.records.remove(key);
                self.onus[usize::from(unit.row.onu)] = None;
                self.ranging.remove(u16::from(unit.row.onu));
                self.operating.remove(u16::from(unit.row.onu));
                Some(unit)
            }
            None => None,
        }
    }

    /// Disables an admitted serial number. Its unit, if it has one, is not touched.
    pub fn disable(&mut self, serial: &Serial)
        requires admitted { IsTrue (set.contains self.old.admitted serial.now) }
        ensures { self.new ≡ record self.old { disabled = set.insert self.old.disabled serial.now } }
    {
        self.admissions.set_disabled(serial, true);
    }

    /// Enables a serial number; one that isn't disabled stays as it is.
    pub fn enable(&mut self, serial: &Serial)
        ensures { self.new ≡ record self.old { disabled = set.remove self.old.disabled serial.now } }
    {
        self.admissions.set_disabled(serial, false);
    }

    /// Enables every serial number. This walks over all that are admitted.
    pub fn enable_all(&mut self)
        ensures { self.new ≡ record self.old { disabled = set.empty } }
    {
        self.admissions.enable_all();
    }

    /// The least ONU-ID of a ranging unit.
    pub fn least_ranging(&self) -> Option<u8>
        ensures { IsLeastRanging self.now.rows result }
    {
        match self.ranging.least_from(0) {
            Some(onu) => Some(onu as u8),
            None => None,
        }
    }

    /// The least ONU-ID of an operating unit.
    fn least_operating(&self) -> Option<u8>
        ensures { IsLeast (Operates self.now.rows) result }
    {
        match self.operating.least_from(0) {
            Some(onu) => Some(onu as u8),
            None => None,
        }
    }

    /// The ONU-ID of the operating unit that is polled next after the last polled one.
    pub fn next_poll(&self, last: Option<u8>) -> Option<u8>
        ensures { IsNextPoll self.now.rows last result }
    {
        match least_above(&self.operating, last) {
            Some(onu) => Some(onu as u8),
            None => self.least_operating(),
        }
    }

    /// Makes every operating unit range from the start, and tells how many there were.
    pub fn pop_up(&mut self) -> usize
        ensures rows { self.new ≡ record self.old { rows = popped_rows self.old.rows } }
        ensures count { result ≡ count_operating self.old.rows }
    {
        let units = self.len();
        for count in 0..units {
            let Some(onu) = self.next_poll(None) else {
                return count;
            };
            self.pop_up_one(onu);
        }
        units
    }

    /// Makes the operating unit with this ONU-ID range from the start.
    fn pop_up_one(&mut self, onu: u8)
        requires { IsInPhase self.old.rows false onu }
        ensures one { PopsUpOne self.old.rows self.new.rows }
        ensures rest { self.new ≡ record self.old { rows = self.new.rows } }
    {
        mark(&mut self.ranging, &mut self.operating, onu, true);
        match self.onus[usize::from(onu)] {
            Some(key) => {
                self.records[key].row.phase = Phase::Ranging {
                    attempts: 0,
                    seen: false,
                };
            }
            None => unreachable!(),
        }
    }
}

/// The least of the ONU-IDs above the last polled one; none where none was polled.
fn least_above(onus: &NumberSet<0, 4>, last: Option<u8>) -> Option<u16>
    ensures none { last ≡ None → result ≡ None }
    ensures some { (polled : ℕ) → last ≡ Some polled → IsLeastFrom onus.now (polled + 1) result }
{
    match last {
        Some(last) => onus.least_from(u16::from(last) + 1),
        None => None,
    }
}
