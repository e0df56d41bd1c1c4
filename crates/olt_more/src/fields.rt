//! Digests of entries: every field of an event and of its answer.
use crate::digest::Digest;
use gp_alarms::{Alarm, AlarmKind};
use gp_machine::{Answer, Command, Entry, Event, Receipt, Reply, Row};
use gp_ploam::{Down, Serial};
use gp_ranging::Grant;
use gp_unit::{Phase, RowView};

/// Makes one number of four.
pub(crate) fn word_of(kind: u8, small: u8, middle: u16, great: u32) -> u64 {
    let [a, b] = middle.to_le_bytes();
    let [c, d, e, f] = great.to_le_bytes();
    u64::from_le_bytes([kind, small, a, b, c, d, e, f])
}

/// Adds a serial number.
pub(crate) fn add_serial(digest: &mut Digest, serial: Serial) {
    let Serial(octets) = serial;
    digest.add(u64::from_le_bytes(octets));
}

/// Adds a command about a unit.
fn add_order(digest: &mut Digest, kind: u8, alloc: u16, serial: Serial) {
    digest.add(word_of(kind, 0, alloc, 0));
    add_serial(digest, serial);
}

/// Adds what an operator asks for.
fn add_command(digest: &mut Digest, command: &Command) {
    match *command {
        Command::Search => digest.add(3),
        Command::Alloc(serial) => add_order(digest, 4, 0, serial),
        Command::Dealloc { serial, alloc } => add_order(digest, 5, alloc, serial),
        Command::Deactivate(serial) => add_order(digest, 6, 0, serial),
        Command::Disable(serial) => add_order(digest, 7, 0, serial),
        Command::Enable(serial) => add_order(digest, 8, 0, serial),
        Command::EnableAll => digest.add(9),
        Command::Popup(serial) => add_order(digest, 10, 0, serial),
        Command::PopupAll => digest.add(11),
        Command::Show(serial) => add_order(digest, 12, 0, serial),
    }
}

/// Adds what happened.
fn add_event(digest: &mut Digest, event: &Event) {
    match event {
        Event::Frame => digest.add(1),
        Event::Burst { at, bytes } => {
            digest.add(word_of(2, 0, 0, *at));
            digest.add_octets(bytes);
        }
        Event::Command(command) => add_command(digest, command),
    }
}

/// Makes a number of how far the activation of a unit has gone.
fn phase_word(phase: Phase) -> u64 {
    match phase {
        Phase::Ranging { attempts, seen } => word_of(1, attempts, u16::from(seen), 0),
        Phase::Operating { eqd, dark, garbled } => word_of(2, dark, u16::from(garbled), eqd),
    }
}

/// Makes a number of an Alloc-ID that may be there.
fn alloc_word(alloc: Option<u16>) -> u64 {
    match alloc {
        Some(alloc) => word_of(1, 0, alloc, 0),
        None => 0,
    }
}

/// Adds what a port knows of a unit.
pub(crate) fn add_row(digest: &mut Digest, row: &Row) {
    let RowView {
        onu,
        allocs,
        pending,
        waiting,
        phase,
    } = row.view();
    digest.add(word_of(32, onu, u16::from(waiting), 0));
    digest.add(phase_word(phase));
    digest.add(alloc_word(pending));
    for slot in &allocs {
        match slot {
            Some((alloc, is_leaving)) => digest.add(word_of(1, u8::from(*is_leaving), *alloc, 0)),
            None => digest.add(0),
        }
    }
}

/// Adds a reply.
fn add_reply(digest: &mut Digest, reply: &Reply) {
    let word = match *reply {
        Reply::Ticked => 0,
        Reply::Refused(refusal) => word_of(1, refusal.number(), 0, 0),
        Reply::Searching => 2,
        Reply::Found(onu) => word_of(3, onu, 0, 0),
        Reply::Again(onu) => word_of(4, onu, 0, 0),
        Reply::Repeat(onu) => word_of(5, onu, 0, 0),
        Reply::Restarted(onu) => word_of(6, onu, 0, 0),
        Reply::DisabledSeen => 7,
        Reply::Ranged { onu, eqd } => word_of(8, onu, 0, eqd),
        Reply::TooFar(onu) => word_of(9, onu, 0, 0),
        Reply::StillRanging(onu) => word_of(10, onu, 0, 0),
        Reply::Alive(onu) => word_of(11, onu, 0, 0),
        Reply::Acked(alloc) => word_of(12, 0, alloc, 0),
        Reply::Gasp(onu) => word_of(13, onu, 0, 0),
        Reply::Allocated(alloc) => word_of(14, 0, alloc, 0),
        Reply::Releasing(alloc) => word_of(15, 0, alloc, 0),
        Reply::Deactivated(onu) => word_of(16, onu, 0, 0),
        Reply::Disabled => 17,
        Reply::Enabled => 18,
        Reply::EnabledAll => 19,
        Reply::PoppedUp(onu) => word_of(20, onu, 0, 0),
        Reply::PoppedUpAll(units) => word_of(21, units, 0, 0),
        Reply::Shown(row) => return add_row(digest, &row),
    };
    digest.add(word);
}

/// Adds a message of the line terminal.
pub(crate) fn add_message(digest: &mut Digest, message: &Down) {
    match message {
        Down::UpstreamOverhead { burst } => {
            digest.add(1);
            digest.add_octets(burst);
        }
        Down::AssignOnu { onu, serial } => {
            digest.add(word_of(2, *onu, 0, 0));
            add_serial(digest, *serial);
        }
        Down::RangingTime { onu, eqd } => digest.add(word_of(3, *onu, 0, *eqd)),
        Down::Deactivate { onu } => digest.add(word_of(4, *onu, 0, 0)),
        Down::DisableSerial { serial } => {
            digest.add(5);
            add_serial(digest, *serial);
        }
        Down::EnableSerial { serial } => {
            digest.add(6);
            add_serial(digest, *serial);
        }
        Down::EnableAll => digest.add(7),
        Down::AssignAlloc { onu, alloc, keep } => {
            digest.add(word_of(8, *onu, *alloc, u32::from(*keep)))
        }
        Down::NoMessage => digest.add(9),
        Down::Popup { onu } => digest.add(word_of(10, *onu, 0, 0)),
        Down::Other { id, octet1, body } => {
            digest.add(word_of(11, *id, u16::from(*octet1), 0));
            digest.add_octets(body);
        }
    }
}

/// Makes a number of a grant, if there is one, and of what else is there.
pub(crate) fn grant_word(grant: &Option<Grant>, others: u16) -> u64 {
    match *grant {
        None => word_of(0, 0, others, 0),
        Some(Grant::Search) => word_of(1, 0, others, 0),
        Some(Grant::Range(onu)) => word_of(2, onu, others, 0),
        Some(Grant::Poll(onu)) => word_of(3, onu, others, 0),
    }
}

/// Makes a number of what an alarm is about.
fn kind_word(kind: AlarmKind) -> u64 {
    match kind {
        AlarmKind::Los => 1,
        AlarmKind::Loam => 2,
        AlarmKind::Loa => 3,
        AlarmKind::Suf => 4,
        AlarmKind::Df => 5,
        AlarmKind::Dg => 6,
    }
}

/// Adds what an event was answered with.
fn add_answer(digest: &mut Digest, answer: &Answer) {
    let others = u16::from_le_bytes([
        u8::from(answer.sent.is_some()),
        u8::from(answer.alarm.is_some()),
    ]);
    digest.add(grant_word(&answer.grant, others));
    add_reply(digest, &answer.reply);
    if let Some(message) = &answer.sent {
        add_message(digest, message);
    }
    if let Some(Alarm { kind, serial }) = &answer.alarm {
        digest.add(kind_word(*kind));
        add_serial(digest, *serial);
    }
}

/// Adds an entry.
pub(crate) fn add_entry(digest: &mut Digest, entry: &Entry) {
    let purses = u64::from(entry.purse_out).wrapping_mul(0x1_0000_0000);
    digest.add(purses ^ u64::from(entry.purse_in));
    add_event(digest, &entry.event);
    add_answer(digest, &entry.answer);
}

/// Adds a receipt.
pub(crate) fn add_receipt(digest: &mut Digest, receipt: &Receipt) {
    digest.add(u64::from(receipt.port));
    digest.add(receipt.number);
    add_entry(digest, &receipt.entry);
}
