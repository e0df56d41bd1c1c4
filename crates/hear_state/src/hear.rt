//! What is known after what is heard: `hear`, which notes nothing where it fails.
ghost use Rattle.std.specs.Prelude.{◌≡◌, ◌≤◌, ◌==◌, IfErr, OnOk, OnErr, None, Some, false, if◌then◌else◌, map as list_map, set, slice_index_or};
ghost use Rattle.gp_ploam.specs.Down.{IsFittingDown};
ghost use Rattle.gp_ploam.specs.OnuIds.{last_onu, broadcast_onu};
ghost use Rattle.gp_pools.specs.Limits.{last_alloc_id};
ghost use Rattle.gp_watch.specs.Heard.{heard_of, IsFitting};
ghost use Rattle.hear_rules.specs.Facts.{No, Yes};
ghost use Rattle.hear_rules.specs.Known.{Unclear, after_adjust, after_alloc, after_answer, after_assign, after_disable, after_drop, after_drop_all, after_enable, after_message, after_other, after_pop_up_all, after_range, known_after, owner_after, owner_told};
ghost use Rattle.hear_state.specs.Changes.{after_serial, index_without, is_held_by, lost_at, rows_without, serial_told};
ghost use Rattle.hear_state.specs.Heard.{FailsBy, FailsOn, asking, cannot_ask, followed_by, has_no_room, is_too_much};
ghost use Rattle.hear_state.specs.Kept.{SameKnown, known_of};
ghost use Rattle.hear_state.specs.Rows.{number_of};

use crate::facts::{Fact, Sure};
use crate::fault::HearFault;
use crate::index::Index;
use crate::knowledge::Knowledge;
use crate::owners::Owners;
use crate::rows::{Row, Rows};
use gp_ploam::{BROADCAST_ONU, Down, LAST_ONU, Serial, Up};
use gp_watch::Heard;

/// The identifier of Ranging_Adjustment (G.984.3, clause 9).
const ADJUSTMENT: u8 = 23;

/// Notes that nobody holds the ONU-ID that a unit held, if it held one.
fn free(rows: &mut Rows, held: Fact<u8>)
    ensures { rows.new ≡ rows_without rows.old held }
{
    if let Fact::Is(onu) = held {
        rows.set(onu, Row::Nobodys);
    }
}

/// Notes that who held the ONU-ID of this row, if anybody did, holds none.
fn release(index: &mut Index, row: &Row)
    ensures { index.new ≡ index_without index.old row.now }
{
    if let Row::Of { serial, .. } = row {
        index.release(serial);
    }
}

/// Notes that who held the ONU-ID of this row holds none, if it was another unit than this one.
fn release_other(index: &mut Index, row: &Row, serial: &Serial)
    ensures { index.new ≡ (if is_held_by row.now serial.now then index.old else index_without index.old row.now) }
{
    if !row.is_held_by(serial) {
        release(index, row);
    }
}

/// Notes that the ONU-ID that a unit held, if it held one, loses its Alloc-IDs.
fn lose_held(owners: &mut Owners, held: Fact<u8>)
    ensures { owners.new ≡ list_map (owner_after (lost_at held)) owners.old }
{
    if let Fact::Is(onu) = held {
        owners.lose(onu, Sure::Yes);
    }
}

/// Notes that an Alloc-ID is given to the ONU-ID of this row, or taken back from it.
fn tell(owners: &mut Owners, row: &Row, onu: u8, alloc: u16, keep: bool)
    requires { alloc ≤ last_alloc_id }
    ensures { owners.new ≡ set owners.old alloc
        (owner_told (number_of row.now) (slice_index_or owners.old alloc Unclear) onu keep) }
{
    match row {
        _ if !keep => owners.take_back(alloc, onu),
        Row::Unheard => owners.lose_sight(alloc),
        Row::Of { .. } => owners.give(alloc, onu),
        Row::Nobodys => {}
    }
}

impl Knowledge {
    /// Notes an Assign_ONU-ID of a number that a unit may have.
    fn note_assign(&mut self, onu: u8, serial: &Serial) -> Result<(), HearFault>
        ensures knows { OnOk result (SameKnown (known_of self.new) (after_assign (known_of self.old) onu serial.now)) }
        ensures room { OnOk result (has_no_room self.old (Some serial.now) ≡ false) }
        ensures same { OnErr result (self.new ≡ self.old) }
        ensures fails { IfErr result
            (FailsBy self.old (Some serial.now) (has_no_room self.old (Some serial.now))) }
    {
        let followed = self.followed(serial);
        let row = self.row(onu);
        self.index.put(serial, followed.assigned(onu))?;
        release_other(&mut self.index, &row, serial);
        free(&mut self.rows, followed.holds);
        self.rows.set(onu, row.assigned(followed.asked, serial));
        lose_held(&mut self.owners, followed.other_than(onu));
        self.owners.lose(onu, row.lost_to(serial));
        Ok(())
    }

    /// Notes a Ranging_Time.
    fn note_range(&mut self, onu: u8, eqd: u32)
        ensures { SameKnown (known_of self.new) (after_range (known_of self.old) onu eqd) }
    {
        let row = self.row(onu);
        self.rows.set(onu, row.ranged(eqd));
    }

    /// Notes a Deactivate_ONU-ID of one.
    fn note_drop(&mut self, onu: u8)
        ensures { SameKnown (known_of self.new) (after_drop (known_of self.old) onu) }
    {
        let row = self.row(onu);
        release(&mut self.index, &row);
        self.rows.set(onu, Row::Nobodys);
        self.owners.lose(onu, Sure::Yes);
    }

    /// Notes a Deactivate_ONU-ID of all.
    fn note_drop_all(&mut self)
        ensures { SameKnown (known_of self.new) (after_drop_all (known_of self.old)) }
    {
        self.rows.drop_all();
        self.index.release_all();
        self.others.holds = Fact::Nothing;
        self.owners.lose_all();
    }

    /// Notes a Disable_Serial_Number.
    fn note_disable(&mut self, serial: &Serial) -> Result<(), HearFault>
        ensures knows { OnOk result (SameKnown (known_of self.new) (after_disable (known_of self.old) serial.now)) }
        ensures room { OnOk result (has_no_room self.old (Some serial.now) ≡ false) }
        ensures same { OnErr result (self.new ≡ self.old) }
        ensures fails { IfErr result
            (FailsBy self.old (Some serial.now) (has_no_room self.old (Some serial.now))) }
    {
        let followed = self.followed(serial);
        self.index.put(serial, followed.disabled())?;
        free(&mut self.rows, followed.holds);
        lose_held(&mut self.owners, followed.holds);
        Ok(())
    }

    /// Notes that a serial number is enabled.
    fn note_enable(&mut self, serial: &Serial) -> Result<(), HearFault>
        ensures knows { OnOk result (SameKnown (known_of self.new) (after_enable (known_of self.old) serial.now)) }
        ensures room { OnOk result (has_no_room self.old (Some serial.now) ≡ false) }
        ensures same { OnErr result (self.new ≡ self.old) }
        ensures fails { IfErr result
            (FailsBy self.old (Some serial.now) (has_no_room self.old (Some serial.now))) }
    {
        let followed = self.followed(serial);
        self.index.put(serial, followed.enabled())?;
        Ok(())
    }

    /// Notes that all serial numbers are enabled.
    fn note_enable_all(&mut self)
        ensures { SameKnown (known_of self.new) (record (known_of self.old) { disabled = λ serial. No }) }
    {
        self.index.enable_all();
        self.others.disabled = Sure::No;
    }

    /// Notes an Assign_Alloc-ID.
    fn note_alloc(&mut self, onu: u8, alloc: u16, keep: bool)
        requires { alloc ≤ last_alloc_id }
        ensures { SameKnown (known_of self.new) (after_alloc (known_of self.old) onu alloc keep) }
    {
        let row = self.row(onu);
        tell(&mut self.owners, &row, onu, alloc, keep);
    }

    /// Notes that units of all ONU-IDs may have lost their delay.
    fn note_pop_up_all(&mut self)
        ensures { SameKnown (known_of self.new) (after_pop_up_all (known_of self.old)) }
    {
        self.rows.pop_up_all();
    }

    /// Notes that the delay of an ONU-ID changes by what isn't read.
    fn note_adjust(&mut self, onu: u8)
        ensures { SameKnown (known_of self.new) (after_adjust (known_of self.old) onu) }
    {
        let row = self.row(onu);
        self.rows.set(onu, row.popped_up());
    }

    /// Notes a message of another identifier.
    fn note_other(&mut self, id: u8, onu: u8)
        ensures { SameKnown (known_of self.new) (after_other (known_of self.old) id onu) }
    {
        if id != ADJUSTMENT {
            return;
        }
        if onu == BROADCAST_ONU {
            self.note_pop_up_all();
        } else {
            self.note_adjust(onu);
        }
    }

    /// Notes that Upstream_Overhead was sent.
    fn note_overhead(&mut self)
        ensures { SameKnown (known_of self.new) (record (known_of self.old) { overhead = Yes }) }
    {
        self.overhead = Sure::Yes;
    }

    /// Notes a message down.
    fn note_down(&mut self, message: &Down) -> Result<(), HearFault>
        requires { IsFittingDown message.now }
        ensures knows { OnOk result (SameKnown (known_of self.new) (after_message (known_of self.old) message.now)) }
        ensures room { OnOk result (has_no_room self.old (followed_by message.now) ≡ false) }
        ensures same { OnErr result (self.new ≡ self.old) }
        ensures fails { IfErr result
            (FailsBy self.old (followed_by message.now) (has_no_room self.old (followed_by message.now))) }
    {
        match *message {
            Down::UpstreamOverhead { .. } => self.note_overhead(),
            Down::AssignOnu { onu, serial } if onu <= LAST_ONU => self.note_assign(onu, &serial)?,
            Down::RangingTime { onu, eqd } => self.note_range(onu, eqd),
            Down::Deactivate { onu: BROADCAST_ONU } => self.note_drop_all(),
            Down::Deactivate { onu } => self.note_drop(onu),
            Down::DisableSerial { serial } => self.note_disable(&serial)?,
            Down::EnableSerial { serial } => self.note_enable(&serial)?,
            Down::EnableAll => self.note_enable_all(),
            Down::AssignAlloc { onu, alloc, keep } => self.note_alloc(onu, alloc, keep),
            Down::Popup { onu: BROADCAST_ONU } => self.note_pop_up_all(),
            Down::Other { id, octet1, .. } => self.note_other(id, octet1),
            Down::AssignOnu { .. } | Down::NoMessage | Down::Popup { .. } => {}
        }
        Ok(())
    }

    /// Notes that a unit asks for an ONU-ID.
    fn note_ask(&mut self, serial: &Serial) -> Result<(), HearFault>
        ensures knows { OnOk result
            (SameKnown (known_of self.new) (after_serial (known_of self.old) broadcast_onu serial.now)) }
        ensures room { OnOk result (cannot_ask self.old (Some serial.now) ≡ false) }
        ensures same { OnErr result (self.new ≡ self.old) }
        ensures fails { IfErr result
            (FailsBy self.old (Some serial.now) (cannot_ask self.old (Some serial.now))) }
    {
        let Some(followed) = self.followed(serial).asking() else {
            return Err(HearFault::Full);
        };
        self.index.put(serial, followed)?;
        Ok(())
    }

    /// Notes that a unit gives its serial number with an ONU-ID: it was assigned one.
    fn note_number(&mut self, onu: u8, serial: &Serial)
        requires { (onu == broadcast_onu) ≡ false }
        ensures { SameKnown (known_of self.new) (after_serial (known_of self.old) onu serial.now) }
    {
        self.index.answer(serial);
    }

    /// Notes the serial number that a unit gives, if it gives one.
    fn note_serial(&mut self, message: &Up) -> Result<(), HearFault>
        ensures knows { OnOk result (SameKnown (known_of self.new) (serial_told (known_of self.old) message.now)) }
        ensures room { OnOk result (cannot_ask self.old (asking message.now) ≡ false) }
        ensures same { OnErr result (self.new ≡ self.old) }
        ensures fails { IfErr result
            (FailsBy self.old (asking message.now) (cannot_ask self.old (asking message.now))) }
    {
        match message {
            Up::SerialNumber {
                onu: BROADCAST_ONU,
                serial,
                ..
            } => self.note_ask(serial)?,
            Up::SerialNumber { onu, serial, .. } => self.note_number(*onu, serial),
            _ => {}
        }
        Ok(())
    }

    /// Notes a message up, with its delay where it was measured.
    fn note_up(&mut self, message: &Up, delay: Option<u32>) -> Result<(), HearFault>
        ensures knows { OnOk result
            (SameKnown (known_of self.new) (after_answer (known_of self.old) message.now delay)) }
        ensures room { OnOk result (cannot_ask self.old (asking message.now) ≡ false) }
        ensures same { OnErr result (self.new ≡ self.old) }
        ensures fails { IfErr result
            (FailsBy self.old (asking message.now) (cannot_ask self.old (asking message.now))) }
    {
        self.note_serial(message)?;
        let onu = message.octet1();
        let row = self.row(onu);
        self.rows.set(onu, row.spoken(message, delay));
        self.up = true;
        Ok(())
    }

    /// Notes what is heard. Memory is taken only where a serial number is new. Where it fails nothing is noted.
    pub fn hear(&mut self, heard: &Heard) -> Result<(), HearFault>
        requires { IsFitting heard.now }
        ensures knows { OnOk result
            (SameKnown (known_of self.new) (known_after (known_of self.old) (heard_of heard.now))) }
        ensures room { OnOk result (is_too_much self.old (heard_of heard.now) ≡ false) }
        ensures same { OnErr result (self.new ≡ self.old) }
        ensures fails { IfErr result (FailsOn self.old (heard_of heard.now)) }
    {
        match heard {
            Heard::Down(Some(message)) => self.note_down(message),
            Heard::Up {
                message: Some(message),
                delay,
            } => self.note_up(message, *delay),
            Heard::Down(None) | Heard::Up { message: None, .. } | Heard::Grant(_) => Ok(()),
        }
    }
}
