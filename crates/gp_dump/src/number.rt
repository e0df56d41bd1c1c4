//! The numbers that stand for what a window asks for, for alarms, and for what a unit does; the declarations say which
//! is which.
ghost use Rattle.std.specs.Prelude.{◌≡◌};
ghost use Rattle.gp_dump.specs.Text as spec;

use crate::change::{UnitState, WindowKind};
use gp_alarms::AlarmKind;

/// Gives the number of what a window asks for.
pub(crate) fn window_number(kind: WindowKind) -> u8
    ensures { result ≡ spec.window_number kind }
{
    match kind {
        WindowKind::Search => 1,
        WindowKind::Range => 2,
        WindowKind::Poll => 3,
    }
}

/// Gives the number of an alarm.
pub(crate) fn alarm_number(kind: AlarmKind) -> u8
    ensures { result ≡ spec.alarm_number kind }
{
    match kind {
        AlarmKind::Los => 1,
        AlarmKind::Loam => 2,
        AlarmKind::Loa => 3,
        AlarmKind::Suf => 4,
        AlarmKind::Df => 5,
        AlarmKind::Dg => 6,
    }
}

/// Gives the number of what a unit does.
pub(crate) fn state_number(state: UnitState) -> u8
    ensures { result ≡ spec.state_number state }
{
    match state {
        UnitState::Removed => 0,
        UnitState::Asking => 1,
        UnitState::Ranging => 2,
        UnitState::Operating => 3,
    }
}
