//! What the journals of a chassis add up to: events and alarms of each kind, and the active units.
ghost use Rattle.std.specs.Prelude.{◌≡◌, ◌≤◌, ◌∷◌, [], length, map, sum_by, if◌then◌else◌};
ghost use Rattle.gp_chassis.specs.Desk.{DeskState};
ghost use Rattle.gp_machine.specs.Config.{max_journal_limit, max_ports};
ghost use Rattle.gp_workers.specs.Totals.{AreTotals, CountsOf, AtMost, is_kind, raises, frame_event, burst_event, command_event};
ghost use Rattle.gp_workers.specs.Closing.{desk_rows};

use super::desks::rows;
use super::unlocked::Unlocked;
use gp_alarms::AlarmKind;
use gp_machine::{Entry, Event};
use std::sync::ledger::Ledger;

/// How many events and alarms of each kind the journals of a chassis tell of, and how many units are active.
#[derive(Clone, Copy, Debug, PartialEq, Eq)]
pub struct Totals {
    /// Downstream frames.
    pub frames: u64,
    /// Bursts that arrived.
    pub bursts: u64,
    /// Commands of the operator.
    pub commands: u64,
    /// Alarms: loss of signal.
    pub los: u64,
    /// Alarms: loss of PLOAM.
    pub loam: u64,
    /// Alarms: loss of acknowledge.
    pub loa: u64,
    /// Alarms: start-up failure.
    pub suf: u64,
    /// Alarms: deactivate failure.
    pub df: u64,
    /// Alarms: dying gasp.
    pub dg: u64,
    /// Active units on all ports, at the end of the journals.
    pub units: u64,
}

/// No events, no alarms and no units.
fn none() -> Totals
    ensures counts { CountsOf result [] }
    ensures units { result.units ≡ 0 }
{
    Totals {
        frames: 0,
        bursts: 0,
        commands: 0,
        los: 0,
        loam: 0,
        loa: 0,
        suf: 0,
        df: 0,
        dg: 0,
        units: 0,
    }
}

/// Tells whether an alarm of this kind is raised with the entry.
fn raises(kind: AlarmKind, entry: &Entry) -> bool
    ensures { result ≡ raises kind entry.now }
{
    match entry.answer.alarm {
        None => false,
        Some(alarm) => is_kind(kind, alarm.kind),
    }
}

/// Tells whether both kinds are one.
fn is_kind(kind: AlarmKind, other: AlarmKind) -> bool
    ensures { result ≡ is_kind kind other }
{
    kind == other
}

/// Counts one where it holds, else none.
fn one_if(holds: bool) -> u64
    ensures { result ≡ (if holds then 1 else 0) }
{
    if holds { 1 } else { 0 }
}

/// Tells whether an event is a frame.
fn is_frame(event: &Event) -> bool
    ensures { result ≡ frame_event event.now }
{
    matches!(event, Event::Frame)
}

/// Tells whether an event is a burst.
fn is_burst(event: &Event) -> bool
    ensures { result ≡ burst_event event.now }
{
    matches!(event, Event::Burst { .. })
}

/// Tells whether an event is a command.
fn is_command(event: &Event) -> bool
    ensures { result ≡ command_event event.now }
{
    matches!(event, Event::Command(_))
}

/// The totals of one entry.
fn of_entry(entry: &Entry) -> Totals
    ensures counts { CountsOf result (entry.now ∷ []) }
    ensures most { AtMost result 1 }
{
    Totals {
        frames: one_if(is_frame(&entry.event)),
        bursts: one_if(is_burst(&entry.event)),
        commands: one_if(is_command(&entry.event)),
        los: one_if(raises(AlarmKind::Los, entry)),
        loam: one_if(raises(AlarmKind::Loam, entry)),
        loa: one_if(raises(AlarmKind::Loa, entry)),
        suf: one_if(raises(AlarmKind::Suf, entry)),
        df: one_if(raises(AlarmKind::Df, entry)),
        dg: one_if(raises(AlarmKind::Dg, entry)),
        units: 0,
    }
}

/// The totals of one port's entries.
fn of_entries(entries: &[Entry]) -> Totals
    requires { length entries.now ≤ max_journal_limit }
    ensures counts { CountsOf result entries.now }
    ensures most { AtMost result (length entries.now) }
{
    let mut all = none();
    for entry in entries {
        let more = of_entry(entry);
        all.frames += more.frames;
        all.bursts += more.bursts;
        all.commands += more.commands;
        all.los += more.los;
        all.loam += more.loam;
        all.loa += more.loa;
        all.suf += more.suf;
        all.df += more.df;
        all.dg += more.dg;
    }
    all
}

/// The totals of what desks keep.
pub(crate) fn of_desks<L: Ledger>(desks: &[Unlocked<L>]) -> Totals
    requires { length desks.now ≤ max_ports }
    ensures { AreTotals result (map (λ (desk : DeskState). desk.entries) desks.now) (sum_by desk_rows desks.now) }
{
    let mut all = none();
    for desk in desks {
        let more = of_entries(desk.desk.journal().entries());
        all.frames += more.frames;
        all.bursts += more.bursts;
        all.commands += more.commands;
        all.los += more.los;
        all.loam += more.loam;
        all.loa += more.loa;
        all.suf += more.suf;
        all.df += more.df;
        all.dg += more.dg;
        all.units += u64::from(rows(desk));
    }
    all
}
