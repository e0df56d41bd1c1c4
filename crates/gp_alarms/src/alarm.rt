//! The alarms that a port raises, and their printed names (G.984.3, clause 11).
ghost use Rattle.std.specs.Prelude.{◌≡◌, ◌≤◌, length};
ghost use Rattle.gp_alarms.specs.Alarm.{alarm_name};

use gp_ploam::Serial;
use std::fmt;

/// What an alarm is about. The names are those of G.984.3, clause 11, without the unit's index; that LOS is
/// given after four poll windows and LOAM after three is that clause's too, and when the others are given is
/// this profile's own rule.
#[derive(Clone, Copy, Debug, PartialEq, Eq)]
pub enum AlarmKind {
    /// Loss of signal: the unit did not answer its poll windows.
    Los,
    /// Loss of PLOAM: what came in its poll windows was no message of the unit.
    Loam,
    /// Loss of acknowledge: poll windows of the unit ended without an Acknowledge of its pending Alloc-ID, whether it
    /// answered in them or not.
    Loa,
    /// Start-up failure: the unit was seen while ranging, and not ranged.
    Suf,
    /// Deactivate failure (G.984.3, clause 11). In this profile: a disabled unit asks for an ONU-ID.
    Df,
    /// Dying gasp: the unit said that its power fails.
    Dg,
}

/// An alarm of the unit with this serial number.
#[derive(Clone, Copy, Debug, PartialEq, Eq)]
pub struct Alarm {
    /// What is wrong.
    pub kind: AlarmKind,
    /// The unit's serial number.
    pub serial: Serial,
}

impl AlarmKind {
    /// Gives the name that is printed, of at most four letters.
    pub fn name(self) -> &'static str
        ensures name { result.now ≡ alarm_name self }
        ensures short { length result.now ≤ 4 }
    {
        match self {
            AlarmKind::Los => "LOS",
            AlarmKind::Loam => "LOAM",
            AlarmKind::Loa => "LOA",
            AlarmKind::Suf => "SUF",
            AlarmKind::Df => "DF",
            AlarmKind::Dg => "DG",
        }
    }
}

impl fmt::Display for AlarmKind {
    ghost use Rattle.std.specs.Prelude.{Some};
    ghost use Rattle.gp_alarms.specs.Alarm.{alarm_name};

    ghost output = { λ kind. Some (alarm_name kind) };

    fn fmt<W: fmt::Write>(&self, f: &mut fmt::Formatter<W>) -> fmt::Result {
        f.write_str(self.name())
    }
}
