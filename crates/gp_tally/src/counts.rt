//! What is counted of a port and of a unit.
ghost use Rattle.std.specs.Prelude.{◌≡◌, ◌<◌, length};
ghost use Rattle.gp_tally.specs.Tally as spec;

use crate::told::{Happened, Told};
use gp_alarms::{Alarm, AlarmKind};
use gp_machine::Refusal;

/// How many kinds of alarm there are.
pub const ALARM_KINDS: usize = 6;

/// How many refusals there are, and one: their numbers count from 1.
pub const REFUSAL_NUMBERS: usize = 15;

/// What is counted of a port. A count stays at 2^64 - 1.
#[derive(Clone, Copy, Debug, PartialEq, Eq)]
pub struct PortCounts {
    /// How many frames it had.
    pub frames: u64,
    /// How many bursts came.
    pub bursts: u64,
    /// How many commands were given.
    pub commands: u64,
    /// How many of these were refused, each refusal at its number.
    pub refusals: [u64; REFUSAL_NUMBERS],
    /// How many alarms were raised, each kind at its [`kind_place`].
    pub alarms: [u64; ALARM_KINDS],
}

/// What is counted of a unit. A count stays at 2^64 - 1; a time is the number of frames that its port has had.
#[derive(Clone, Copy, Debug, PartialEq, Eq)]
pub struct UnitCounts {
    /// How often it was found.
    pub found: u64,
    /// How often it was ranged.
    pub ranged: u64,
    /// How many alarms were raised for it, each kind at its [`kind_place`].
    pub alarms: [u64; ALARM_KINDS],
    /// When its last message came.
    pub heard: Option<u64>,
    /// When it first asked for an ONU-ID since it was last ranged, if it did.
    pub asked: Option<u64>,
    /// How many frames it took from there until it was ranged last.
    pub took: Option<u64>,
}

/// What happens to a unit, with the number of frames that its port has had where that is kept.
#[derive(Clone, Copy)]
pub(crate) enum UnitEvent {
    /// It asks for an ONU-ID.
    Asks(u64),
    /// A message comes from it.
    Answers(u64),
    /// It is found.
    IsFound,
    /// It is ranged.
    IsRanged(u64),
    /// An alarm of this kind is raised for it.
    Raises(AlarmKind),
}

/// Gives the place of a kind of alarm among counts of alarms: in the order of `AlarmKind`.
pub fn kind_place(kind: AlarmKind) -> usize
    ensures place { result ≡ spec.kind_place kind }
    ensures within { result < ALARM_KINDS }
{
    match kind {
        AlarmKind::Los => 0,
        AlarmKind::Loam => 1,
        AlarmKind::Loa => 2,
        AlarmKind::Suf => 3,
        AlarmKind::Df => 4,
        AlarmKind::Dg => 5,
    }
}

/// Counts one more.
fn one_more(count: u64) -> u64
    ensures { result ≡ spec.one_more count }
{
    if count == u64::MAX { count } else { count + 1 }
}

/// Counts one more at a place.
fn count_at(counts: &mut [u64], place: usize)
    requires { place < length counts.old }
    ensures { counts.new ≡ spec.counted_at counts.old place }
{
    counts[place] = one_more(counts[place]);
}

/// Gives the place of a refusal among counts of refusals.
fn refusal_place(refusal: Refusal) -> usize
    ensures place { result ≡ spec.refusal_place refusal }
    ensures within { result < REFUSAL_NUMBERS }
{
    usize::from(refusal.number())
}

impl UnitCounts {
    /// Nothing was counted.
    pub(crate) fn none() -> UnitCounts
        ensures { result ≡ spec.no_unit }
    {
        UnitCounts {
            found: 0,
            ranged: 0,
            alarms: [0; ALARM_KINDS],
            heard: None,
            asked: None,
            took: None,
        }
    }

    /// Gives how many frames it takes from its first ask until this one.
    fn took_until(&self, frame: u64) -> Option<u64>
        ensures { result ≡ spec.took_until self.now.asked frame }
    {
        match self.asked {
            Some(first) => Some(frame.saturating_sub(first)),
            None => None,
        }
    }

    /// Gives what is counted after this happened to the unit.
    pub(crate) fn after(&self, event: UnitEvent) -> UnitCounts
        ensures { result ≡ spec.unit_after event self.now }
    {
        let mut unit = *self;
        match event {
            UnitEvent::Asks(frame) => {
                unit.heard = Some(frame);
                unit.asked = Some(unit.asked.unwrap_or(frame));
            }
            UnitEvent::Answers(frame) => unit.heard = Some(frame),
            UnitEvent::IsFound => unit.found = one_more(unit.found),
            UnitEvent::IsRanged(frame) => {
                unit.ranged = one_more(unit.ranged);
                unit.took = self.took_until(frame);
                unit.asked = None;
            }
            UnitEvent::Raises(kind) => count_at(&mut unit.alarms, kind_place(kind)),
        }
        unit
    }
}

impl PortCounts {
    /// Nothing was counted.
    pub(crate) fn none() -> PortCounts
        ensures { result ≡ spec.no_counts }
    {
        PortCounts {
            frames: 0,
            bursts: 0,
            commands: 0,
            refusals: [0; REFUSAL_NUMBERS],
            alarms: [0; ALARM_KINDS],
        }
    }

    /// Counts what happened.
    fn count_event(&mut self, happened: &Happened)
        ensures { self.new ≡ spec.event_counted self.old happened.now }
    {
        match happened {
            Happened::Frame => self.frames = one_more(self.frames),
            Happened::Burst(_) => self.bursts = one_more(self.bursts),
            Happened::Command => self.commands = one_more(self.commands),
        }
    }

    /// Counts why it was refused.
    fn count_refusal(&mut self, refused: Option<Refusal>)
        ensures { self.new ≡ spec.refusal_counted self.old refused }
    {
        if let Some(refusal) = refused {
            count_at(&mut self.refusals, refusal_place(refusal));
        }
    }

    /// Counts its alarm.
    fn count_alarm(&mut self, alarm: &Option<Alarm>)
        ensures { self.new ≡ spec.alarm_counted self.old alarm.now }
    {
        if let Some(alarm) = alarm {
            count_at(&mut self.alarms, kind_place(alarm.kind));
        }
    }

    /// Gives what is counted after a line that tells this.
    pub(crate) fn after(&self, told: &Told) -> PortCounts
        ensures { result ≡ spec.counts_after self.now told.now }
    {
        let mut counts = *self;
        counts.count_event(&told.happened);
        counts.count_refusal(told.answered.refused);
        counts.count_alarm(&told.answered.alarm);
        counts
    }
}
