//! What is counted of a unit's poll windows, and at which counts they give LOS, LOAM or LOA. The limits stand here, the
//! rule in `specs/Poll.antt`.
ghost use Rattle.std.specs.Prelude.{◌≡◌, IfNone};
ghost use Rattle.gp_alarms.specs.Poll.{IsBelowEachLimit, alarm_of, counts_after};

use super::alarm::AlarmKind;

/// How many dark poll windows in a row give LOS (G.984.3, clause 11).
const DARK_LIMIT: u8 = 4;

/// How many garbled poll windows with no message of the unit between give LOAM (three: G.984.3, clause 11).
const GARBLED_LIMIT: u8 = 3;

/// How many poll windows without an Acknowledge of a pending Alloc-ID, dark ones too, give LOA (this profile's own
/// rule).
const WAITING_LIMIT: u8 = 3;

/// What was counted of the poll windows of an operating unit. LOS at four and LOAM at three are
/// G.984.3, clause 11; the count for LOA, what ends a count, and the order of the alarms are this
/// profile's own rule.
#[derive(Clone, Copy, Debug, PartialEq, Eq)]
pub struct PollCounts {
    /// Dark windows since the last one in which something came, 0 to 3.
    pub dark: u8,
    /// Garbled windows since the last message of the unit, 0 to 2.
    pub garbled: u8,
    /// Windows that ended without an Acknowledge of the pending Alloc-ID, dark ones too, 0 to 2.
    pub waiting: u8,
}

/// How a poll window ended.
#[derive(Clone, Copy, Debug, PartialEq, Eq)]
pub enum Outcome {
    /// With a message of the unit, other than the following two.
    Good,
    /// Something came, and no message of the unit.
    Garbled,
    /// Nothing came.
    Dark,
    /// With a Dying_Gasp.
    Gasped,
    /// With an Acknowledge of the pending Alloc-ID.
    Acked,
}

/// Counts a poll window of a unit that ended so: the counts then, and the alarm that they give, which
/// is LOS, LOAM, LOA or none. `pending`: an Alloc-ID is pending.
pub fn close_poll(
    counts: PollCounts,
    outcome: Outcome,
    pending: bool,
) -> (PollCounts, Option<AlarmKind>)
    requires { IsBelowEachLimit counts }
    ensures counts { result.0 ≡ counts_after counts outcome pending }
    ensures alarm { result.1 ≡ alarm_of result.0 }
    ensures goes_on { IfNone result.1 (IsBelowEachLimit result.0) }
{
    let counts = counted(counts, outcome, pending);
    (counts, alarm_at(counts))
}

/// Counts one window more.
fn counted(counts: PollCounts, outcome: Outcome, pending: bool) -> PollCounts
    requires { IsBelowEachLimit counts }
    ensures { result ≡ counts_after counts outcome pending }
{
    let PollCounts {
        dark,
        garbled,
        waiting,
    } = counts;
    let waited = if pending { waiting + 1 } else { waiting };
    match outcome {
        Outcome::Good => PollCounts {
            dark: 0,
            garbled: 0,
            waiting: waited,
        },
        Outcome::Garbled => PollCounts {
            dark: 0,
            garbled: garbled + 1,
            waiting: waited,
        },
        Outcome::Dark => PollCounts {
            dark: dark + 1,
            garbled,
            waiting: waited,
        },
        Outcome::Gasped => PollCounts {
            dark: 0,
            garbled: 0,
            waiting,
        },
        Outcome::Acked => PollCounts {
            dark: 0,
            garbled: 0,
            waiting: 0,
        },
    }
}

/// Gives the first alarm whose count is at its limit.
fn alarm_at(counts: PollCounts) -> Option<AlarmKind>
    ensures { result ≡ alarm_of counts }
{
    if counts.dark == DARK_LIMIT {
        Some(AlarmKind::Los)
    } else if counts.garbled == GARBLED_LIMIT {
        Some(AlarmKind::Loam)
    } else if counts.waiting == WAITING_LIMIT {
        Some(AlarmKind::Loa)
    } else {
        None
    }
}
