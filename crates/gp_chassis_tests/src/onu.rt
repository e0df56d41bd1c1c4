//! A simulated unit by rows of its table, and the printed names of states.
use gp_onu::{State, Unit};
use gp_ploam::{Down, Mask, Serial, encode_down};
use gp_ranging::Grant;
use std::alloc::Global;
use std::fmt::Display;

const SERIAL: Serial = Serial([0x41, 0x42, 0x43, 0x44, 0, 0, 0, 1]);

const OVERHEAD: [u8; 13] = [0xff, 1, 0, 0, 0, 0, 0, 0, 0, 0, 0, 0, 0x58];

const ASSIGNMENT: [u8; 13] = [0xff, 3, 0, 0x41, 0x42, 0x43, 0x44, 0, 0, 0, 1, 0, 0x1b];

const RANGING_TIME: [u8; 13] = [0, 4, 0, 0, 3, 0x38, 0x60, 0, 0, 0, 0, 0, 0x9c];

/// A unit that is lit and has heard the overhead.
fn searched() -> Unit {
    let mut unit = Unit::new(SERIAL, Mask::Plain);
    unit.light();
    unit.hear(&OVERHEAD);
    unit
}

/// A unit in O5 with the ONU-ID 0.
fn operating() -> Unit {
    let mut unit = searched();
    unit.hear(&ASSIGNMENT);
    unit.hear(&RANGING_TIME);
    unit
}

/// So many frames pass.
fn pass(unit: &mut Unit, frames: u32) {
    for _ in 0..frames {
        unit.frame();
    }
}

/// The light goes and comes back, and so many frames pass.
fn interrupt(unit: &mut Unit, frames: u32) {
    unit.dark();
    unit.light();
    pass(unit, frames);
}

/// Tells whether a unit is in this state, and its timer ends in so many frames, if it has one.
fn stands(unit: &Unit, state: State, ends_in: Option<u32>) -> bool {
    unit.state() == state && unit.ends_in() == ends_in
}

/// Tells whether a unit is in this state after it has heard a message.
fn is_after(unit: &mut Unit, octets: &[u8; 13], state: State) -> bool {
    unit.hear(octets);
    unit.state() == state
}

/// Tells whether a unit operates with the ONU-ID 0 and its equalization delay.
fn operates(unit: &Unit) -> bool {
    stands(unit, State::Operation, None) && unit.number() == Some(0) && unit.eqd() == Some(211_040)
}

#[test]
fn each_state_in_turn(rt: HostRuntime) {
    let mut unit = Unit::new(SERIAL, Mask::Plain);
    assert!(rt; unit.state() == State::Initial);
    unit.light();
    assert!(rt; unit.state() == State::Standby);
    assert!(rt; is_after(&mut unit, &OVERHEAD, State::SerialNumber));
    assert!(rt; is_after(&mut unit, &ASSIGNMENT, State::Ranging));
    unit.hear(&RANGING_TIME);
    assert!(rt; operates(&unit));
}

#[test]
fn popup_before_its_timer(rt: HostRuntime) {
    let mut unit = operating();
    interrupt(&mut unit, 799);
    assert!(rt; unit.state() == State::Popup);
    unit.hear(&encode_down(&Down::Popup { onu: 0 }, Mask::Plain));
    assert!(rt; unit.state() == State::Operation && unit.eqd() == Some(211_040));
}

#[test]
fn popup_timer(rt: HostRuntime) {
    let mut unit = operating();
    interrupt(&mut unit, 0);
    assert!(rt; unit.state() == State::Popup);
    pass(&mut unit, 799);
    assert!(rt; unit.state() == State::Popup);
    unit.frame();
    assert!(rt; stands(&unit, State::Initial, Some(1)));
    unit.frame();
    assert!(rt; unit.state() == State::Standby);
}

/// Tells whether the timer of a unit that was searched ends with the next frame, and the unit is in O2 after it.
fn is_last_frame(unit: &mut Unit) -> bool {
    let is_last = stands(unit, State::SerialNumber, Some(1));
    unit.frame();
    is_last && unit.state() == State::Standby
}

/// Frame by frame, and by one call.
#[test]
fn activation_timer(rt: HostRuntime) {
    let mut unit = searched();
    pass(&mut unit, 79_999);
    assert!(rt; is_last_frame(&mut unit));
    let mut skipped = searched();
    assert!(rt; skipped.ends_in() == Some(80_000));
    skipped.skip(79_999);
    assert!(rt; is_last_frame(&mut skipped));
}

const ALLOC_ID: [u8; 13] = [0, 0x0a, 0x10, 0, 1, 0, 0, 0, 0, 0, 0, 0, 0x47];

const ACKNOWLEDGE: [u8; 13] = [0, 9, 0x0a, 0, 0x0a, 0x10, 0, 1, 0, 0, 0, 0, 0x71];

const NOTHING: [u8; 13] = [0, 4, 0, 0, 0, 0, 0, 0, 0, 0, 0, 0, 0x7c];

/// Tells whether a unit that is polled says this.
fn says(unit: &mut Unit, octets: &[u8; 13]) -> bool {
    unit.grant(Grant::Poll(0), 0) == Some(*octets)
}

#[test]
fn alloc_id_acknowledged(rt: HostRuntime) {
    let mut unit = operating();
    unit.hear(&ALLOC_ID);
    assert!(rt; says(&mut unit, &ACKNOWLEDGE));
    assert!(rt; says(&mut unit, &NOTHING));
    unit.hear(&ALLOC_ID);
    assert!(rt; says(&mut unit, &ACKNOWLEDGE));
}

/// Tells whether a value is printed, as this text.
pub(crate) fn prints<T: Display>(alloc: Global, value: &T, text: &str) -> bool {
    match value.to_string(alloc) {
        Ok(printed) => printed.as_str() == text,
        Err(_) => false,
    }
}

const NAMES: [(State, &'static str); 7] = [
    (State::Initial, "O1"),
    (State::Standby, "O2"),
    (State::SerialNumber, "O3"),
    (State::Ranging, "O4"),
    (State::Operation, "O5"),
    (State::Popup, "O6"),
    (State::EmergencyStop, "O7"),
];

#[test]
fn state_names(rt: HostRuntime) {
    for (state, name) in &NAMES {
        assert!(rt; prints(rt.alloc(), state, name), "{name}");
    }
}
