//! What a step changes of the units: their rows and numbers, the disabled serial numbers, the quarantine. A method for
//! each, which changes that as `gp_machine` defines it, by a call of `gp_table`.
ghost use Rattle.std.specs.Prelude.{◌≡◌, ◌<◌, ◌≤◌, None, Some, true, false};
ghost use Rattle.std.specs.FinMap as map;
ghost use Rattle.std.specs.FinSet as set;
ghost use Rattle.gp_ploam.specs.OnuIds.{onu_ids};
ghost use Rattle.gp_ploam.specs.Serials.{is_among};
ghost use Rattle.gp_pools.specs.Slots.{max_allocs};
ghost use Rattle.gp_unit.specs.declared.row.Row.{Row};
ghost use Rattle.gp_unit.specs.Rows.{holds_alloc, is_operating, is_ranging, new_row, row_acknowledged, row_counted, row_polled, row_releasing, row_with_alloc};
ghost use Rattle.gp_alarms.specs.declared.poll.Outcome.TheVariants.{Acked};
ghost use Rattle.gp_unit.specs.Sound.{IsSoundRow};
ghost use Rattle.gp_machine.specs.State.{HasRow, IsFree, IsFreeAlloc, count_rows};
ghost use Rattle.gp_machine.specs.Changes as spec;
ghost use Rattle.gp_machine.specs.Frame.{state_after_cooling};

use super::port_machine::PortMachine;
use gp_alarms::PollCounts;
use gp_machine::Row;
use gp_ploam::Serial;
use gp_unit::Record;

impl PortMachine {
    /// Adds a unit with this free ONU-ID, which begins to range.
    pub(super) fn add_unit(&mut self, serial: Serial, onu: u8)
        requires admitted { is_among serial self.old.config.admitted ≡ true }
        requires unknown { map.get self.old.rows serial ≡ None }
        requires free { IsFree self.old onu }
        ensures { self.new ≡ spec.state_with_row self.old serial (new_row onu) }
    {
        self.units.add(serial, onu);
    }

    /// Sets the row of an active unit, which keeps its numbers.
    pub(super) fn set_row(&mut self, serial: Serial, row: Row)
        requires { (old : Row) × HasRow self.old.rows serial old × (old.onu ≡ row.onu) × (old.allocs ≡ row.allocs) }
        ensures { self.new ≡ spec.state_with_row self.old serial row }
    {
        self.units.set_row(serial, row);
    }

    /// Puts these counts in the place of an active unit's.
    pub(super) fn set_counts(&mut self, serial: Serial, row: Row, counts: PollCounts)
        requires { HasRow self.old.rows serial row }
        ensures { self.new ≡ spec.state_with_row self.old serial (row_counted row counts) }
    {
        self.units.set_counts(Record { serial, row }, counts);
    }

    /// Begins anew with a unit: it keeps its ONU-ID, and its Alloc-IDs are free.
    pub(super) fn restart_unit(&mut self, serial: Serial, row: Row)
        requires has { HasRow self.old.rows serial row }
        requires fits { IsSoundRow self.old.config.alloc_last row }
        ensures { self.new ≡ spec.state_with_row self.old serial (new_row row.onu) }
    {
        self.units.restart(Record { serial, row });
    }

    /// Gives an operating unit this free Alloc-ID, which it has still to acknowledge.
    pub(super) fn give_alloc(&mut self, serial: Serial, row: Row, alloc: u16)
        requires has { HasRow self.old.rows serial row }
        requires fits { IsSoundRow self.old.config.alloc_last row }
        requires operating { is_ranging row.phase ≡ false }
        requires idle { row.pending ≡ None }
        requires few { map.len row.allocs < max_allocs }
        requires free { IsFreeAlloc self.old alloc }
        ensures { self.new ≡ spec.state_with_row self.old serial (row_with_alloc row alloc) }
    {
        self.units.add_alloc(Record { serial, row }, alloc);
    }

    /// Tells a unit to give this Alloc-ID back, which it has still to acknowledge.
    pub(super) fn release_alloc(&mut self, serial: Serial, row: Row, alloc: u16)
        requires has { HasRow self.old.rows serial row }
        requires held { holds_alloc alloc row ≡ true }
        ensures { self.new ≡ spec.state_with_row self.old serial (row_releasing row alloc) }
    {
        self.units.release_alloc(Record { serial, row }, alloc);
    }

    /// Counts a poll window in which an operating unit acknowledged its pending Alloc-ID: one that is leaving is free.
    pub(super) fn acknowledge(&mut self, serial: Serial, row: Row, alloc: u16)
        requires has { HasRow self.old.rows serial row }
        requires fits { IsSoundRow self.old.config.alloc_last row }
        requires operating { is_ranging row.phase ≡ false }
        requires pending { row.pending ≡ Some alloc }
        ensures { self.new ≡ spec.state_with_row self.old serial (row_acknowledged (row_polled row Acked) alloc) }
    {
        self.units.acknowledge(Record { serial, row });
    }

    /// Removes the unit with this ONU-ID: a window that asks it closes, its Alloc-IDs are free, and its ONU-ID cools.
    pub(super) fn remove_unit(&mut self, serial: &Serial, onu: u8)
        requires { (row : Row) × HasRow self.old.rows serial.now row × (row.onu ≡ onu)
            × IsSoundRow self.old.config.alloc_last row }
        ensures { self.new ≡ spec.state_without self.old serial.now onu }
    {
        self.units.remove(serial);
        self.close_if_asked(onu);
    }

    /// Lets every operating unit range anew, and closes an open poll window. Tells how many units there were.
    pub(super) fn pop_up_all(&mut self) -> u8
        requires { map.len self.old.rows ≤ onu_ids }
        ensures state { self.new ≡ spec.state_popped_up self.old }
        ensures count { result ≡ count_rows (λ row. is_operating row.phase) self.old.rows }
    {
        let count = self.units.pop_up_all();
        self.close_if_polling();
        count as u8
    }

    /// Disables an admitted serial number.
    pub(super) fn disable(&mut self, serial: &Serial)
        requires { is_among serial.now self.old.config.admitted ≡ true }
        ensures { self.new ≡ record self.old { disabled = set.insert self.old.disabled serial.now } }
    {
        self.units.disable(serial);
    }

    /// Enables a serial number.
    pub(super) fn enable(&mut self, serial: &Serial)
        ensures { self.new ≡ record self.old { disabled = set.remove self.old.disabled serial.now } }
    {
        self.units.enable(serial);
    }

    /// Enables every serial number.
    pub(super) fn enable_all(&mut self)
        ensures { self.new ≡ record self.old { disabled = set.empty } }
    {
        self.units.enable_all();
    }

    /// Takes a frame off each cooling ONU-ID.
    pub(super) fn cool(&mut self)
        ensures { self.new ≡ state_after_cooling self.old }
    {
        self.units.tick();
    }
}
