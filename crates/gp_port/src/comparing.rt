//! Whether two ports know the same, or give the same answer, part by part: each comparison holds exactly where both are
//! equal. Windows become images here, and windows again.
ghost use Rattle.std.specs.Prelude.{◌≡◌, ℕ, ◌↔◌, IsTrue, length};
ghost use Rattle.std.specs.FinMap as map;
ghost use Rattle.std.specs.FinSet as set;
ghost use Rattle.gp_ploam.specs.OnuIds.{onu_ids};
ghost use Rattle.gp_port.specs.Parts.{AreListed, KnowSameUnits};

use gp_common::Common;
use gp_machine::{Answer, PortConfig, Reply, Row, compares_configs, compares_replies};
use gp_ploam::{ONU_IDS, Serial};
use gp_ranging::{Window, WindowImage};
use gp_table::ActiveUnits;

/// What a port knows besides its units, its window and the copies that it owes.
#[derive(Clone, Copy)]
pub(super) struct Marks {
    pub(super) common: Common,
    pub(super) wanted: bool,
    pub(super) timer: u32,
    pub(super) polled: Option<u8>,
}

/// Tells whether both are the same.
pub(super) fn same_marks(one: Marks, other: Marks) -> bool
    ensures { IsTrue result ↔ (one ≡ other) }
{
    one.common == other.common
        && one.wanted == other.wanted
        && one.timer == other.timer
        && one.polled == other.polled
}

/// Tells whether both are the same.
pub(super) fn same_answer(one: Answer, other: Answer) -> bool
    ensures { IsTrue result ↔ (one ≡ other) }
{
    if !same_reply(one.reply, other.reply) {
        return false;
    }
    same_effects(one, other)
}

/// Tells whether both send, grant and raise the same.
fn same_effects(one: Answer, other: Answer) -> bool
    ensures { IsTrue result ↔ ((one.sent ≡ other.sent) × (one.grant ≡ other.grant) × (one.alarm ≡ other.alarm)) }
{
    one.sent == other.sent && one.grant == other.grant && one.alarm == other.alarm
}

/// Tells whether both are the same.
fn same_reply(one: Reply, other: Reply) -> bool
    ensures { IsTrue result ↔ (one ≡ other) }
{
    compares_replies();
    one == other
}

/// Tells whether both are the same.
fn same_row(one: Option<Row>, other: Option<Row>) -> bool
    ensures { IsTrue result ↔ (one ≡ other) }
{
    compares_replies();
    match (one, other) {
        (Some(one), Some(other)) => one == other,
        (None, None) => true,
        _ => false,
    }
}

/// Tells whether both are the same.
pub(super) fn same_config(one: &PortConfig, other: &PortConfig) -> bool
    ensures { IsTrue result ↔ (one.now ≡ other.now) }
{
    compares_configs();
    *one == *other
}

/// Makes the image of a window that may be open.
pub(super) fn window_image(window: &Option<Window>) -> Option<WindowImage>
    ensures { result ≡ window.now }
{
    match window {
        Some(window) => Some(window.image()),
        None => None,
    }
}

/// Makes a second image of a window that may be open.
pub(super) fn window_copy(window: &Option<WindowImage>) -> Option<WindowImage>
    ensures { result ≡ window.now }
{
    match window {
        Some(window) => Some(window.copy()),
        None => None,
    }
}

/// Opens a window that may be open from its image.
pub(super) fn window_reopened(window: &Option<WindowImage>) -> Option<Window>
    ensures { result ≡ window.now }
{
    match window {
        Some(window) => Some(window.reopen()),
        None => None,
    }
}

/// Tells whether both are the same.
pub(super) fn same_window(one: &Option<WindowImage>, other: &Option<WindowImage>) -> bool
    ensures { IsTrue result ↔ (one.now ≡ other.now) }
{
    match (one, other) {
        (Some(one), Some(other)) => one.is_same_as(other),
        (None, None) => true,
        _ => false,
    }
}

/// Tells whether the same is known of a serial number.
fn same_unit(units: &ActiveUnits, other: &ActiveUnits, serial: &Serial) -> bool
    ensures { IsTrue result
        ↔ ((map.get units.now.rows serial.now ≡ map.get other.now.rows serial.now)
        × (set.contains units.now.disabled serial.now ≡ set.contains other.now.disabled serial.now)) }
{
    same_row(units.row_of(serial), other.row_of(serial))
        && units.is_disabled(serial) == other.is_disabled(serial)
}

/// Tells whether every ONU-ID cools for as long.
fn same_cooling(units: &ActiveUnits, other: &ActiveUnits) -> bool
    requires one { length units.now.cooling ≡ onu_ids }
    requires other { length other.now.cooling ≡ onu_ids }
    ensures { IsTrue result ↔ (units.now.cooling ≡ other.now.cooling) }
{
    for onu in 0..ONU_IDS {
        if units.frames_left(onu) != other.frames_left(onu) {
            return false;
        }
    }
    true
}

/// Tells whether both tables have the same units, disabled serial numbers and cooling ONU-IDs, where both admit these
/// serial numbers. It looks each of them up in both.
pub(super) fn same_units(admitted: &[Serial], units: &ActiveUnits, other: &ActiveUnits) -> bool
    requires one { AreListed admitted.now units.now }
    requires other { AreListed admitted.now other.now }
    ensures { IsTrue result ↔ KnowSameUnits units.now other.now }
{
    for i in 0..admitted.len() {
        if !same_unit(units, other, &admitted[i]) {
            return false;
        }
    }
    same_cooling(units, other)
}
