//! The row of a unit, plain data, and its changes, a method each, which are the functions of `specs/Rows.antt`. No
//! lease is moved here: that is for the typed units.
ghost use Rattle.std.specs.Prelude.{◌≡◌, ◌<◌, IfNone, IsTrue};
ghost use Rattle.std.specs.FinMap as map;
ghost use Rattle.gp_alarms.specs.Poll.{IsBelowEachLimit};
ghost use Rattle.gp_pools.specs.Slots.{max_allocs};
ghost use Rattle.gp_unit.specs.Rows.{alarm_polled, counts_in, counts_polled, has_alloc, holds_alloc, is_ranging, new_row, ranging_anew, row_acknowledged, row_counted, row_measured, row_polled, row_popped_up, row_releasing, row_unranged, row_with_alloc, was_seen};
ghost use Rattle.gp_unit.specs.Sound.{IsCounted};

use gp_alarms::{AlarmKind, Outcome, PollCounts, close_poll};
use gp_pools::Allocs;

/// The greatest count of ranging windows without a result: one more ends the unit (this profile's own rule).
const LAST_ATTEMPT: u8 = 1;

/// How far the activation of a unit has gone (G.984.3, clause 10).
#[derive(Clone, Copy, Debug, PartialEq, Eq)]
pub enum Phase {
    /// The unit has an ONU-ID, and its delay is being measured. `attempts` (0 to 1) is the number of
    /// ranging windows that closed without a result, and `seen` whether anything was heard in them.
    Ranging { attempts: u8, seen: bool },
    /// The unit has its equalization delay, in bit times. `dark` (0 to 3) counts the polls in a row that
    /// nothing answered, and `garbled` (0 to 2) those that were answered by nothing that could be read.
    Operating { eqd: u32, dark: u8, garbled: u8 },
}

impl Phase {
    /// The phase of a unit that begins to range.
    pub fn ranging() -> Phase
        ensures { result ≡ ranging_anew }
    {
        Phase::Ranging {
            attempts: 0,
            seen: false,
        }
    }

    /// Tells whether the unit's delay is still to be measured.
    pub fn is_ranging(&self) -> bool
        ensures { result ≡ is_ranging self.now }
    {
        matches!(self, Phase::Ranging { .. })
    }

    /// Tells whether anything was heard of the unit in ranging windows without a result.
    pub fn was_seen(&self) -> bool
        ensures { result ≡ was_seen self.now }
    {
        matches!(self, Phase::Ranging { seen: true, .. })
    }
}

/// What a port knows of an active unit.
#[derive(Clone, Copy, Debug, PartialEq, Eq)]
pub struct Row {
    /// The unit's ONU-ID, 0 to 253; its default Alloc-ID is the same number.
    pub onu: u8,
    /// Its further Alloc-IDs.
    pub allocs: Allocs,
    /// The Alloc-ID that it has still to acknowledge, either as a new one or as one that it gives back.
    pub pending: Option<u16>,
    /// In how many poll windows it has not done so, 0 to 2.
    pub waiting: u8,
    /// How far its activation has gone.
    pub phase: Phase,
}

impl Row {
    /// Makes the row of a unit that has been given this ONU-ID and begins to range.
    pub fn ranging(onu: u8) -> Row
        ensures { result ≡ new_row onu }
    {
        Row {
            onu,
            allocs: Allocs::new(),
            pending: None,
            waiting: 0,
            phase: Phase::ranging(),
        }
    }

    /// Tells whether the unit has this further Alloc-ID, held or leaving.
    pub fn has_alloc(&self, alloc: u16) -> bool
        ensures { result ≡ has_alloc alloc self.now }
    {
        self.allocs.get(alloc).is_some()
    }

    /// Tells whether the unit holds this further Alloc-ID; one that is leaving is not held.
    pub fn holds_alloc(&self, alloc: u16) -> bool
        ensures { result ≡ holds_alloc alloc self.now }
    {
        self.allocs.get(alloc) == Some(false)
    }

    /// Counts a ranging window that closed without a result: None where it was the second. `heard`: something came in
    /// it.
    pub fn unranged(self, heard: bool) -> Option<Row>
        requires { IsCounted self.phase }
        ensures { result ≡ row_unranged self heard self.phase }
    {
        match self.phase {
            Phase::Ranging { attempts, .. } if attempts == LAST_ATTEMPT => None,
            Phase::Ranging { attempts, seen } => {
                let phase = Phase::Ranging {
                    attempts: attempts + 1,
                    seen: seen || heard,
                };
                Some(Row { phase, ..self })
            }
            Phase::Operating { .. } => Some(self),
        }
    }

    /// Ends the ranging of the unit: it operates with this equalization delay, in bit times.
    pub fn measured(self, eqd: u32) -> Row
        ensures { result ≡ row_measured self eqd }
    {
        let phase = Phase::Operating {
            eqd,
            dark: 0,
            garbled: 0,
        };
        Row { phase, ..self }
    }

    /// Tells what was counted of the unit's poll windows; of a ranging unit `waiting` alone.
    pub fn counts(&self) -> PollCounts
        ensures { result ≡ counts_in self.now.phase self.now.waiting }
    {
        let (dark, garbled) = match self.phase {
            Phase::Ranging { .. } => (0, 0),
            Phase::Operating { dark, garbled, .. } => (dark, garbled),
        };
        PollCounts {
            dark,
            garbled,
            waiting: self.waiting,
        }
    }

    /// Puts these counts in the place of the unit's.
    pub fn set_counts(&mut self, counts: PollCounts)
        ensures { self.new ≡ row_counted self.old counts }
    {
        self.waiting = counts.waiting;
        if let Phase::Operating { dark, garbled, .. } = &mut self.phase {
            *dark = counts.dark;
            *garbled = counts.garbled;
        }
    }

    /// Tells the unit's counts after a poll window that ended so, and the alarm that it gives: LOS, LOAM, LOA or none.
    /// With an alarm the unit is lost, and one of the counts is at its limit.
    pub fn count_poll(&self, outcome: Outcome) -> (PollCounts, Option<AlarmKind>)
        requires { IsBelowEachLimit (counts_in self.now.phase self.now.waiting) }
        ensures counts { result.0 ≡ counts_polled self.now outcome }
        ensures alarm { result.1 ≡ alarm_polled self.now outcome }
        ensures goes_on { IfNone result.1 (IsBelowEachLimit (counts_polled self.now outcome)) }
    {
        close_poll(self.counts(), outcome, self.pending.is_some())
    }

    /// Counts a poll window that ended so, and tells the alarm that it gives: LOS, LOAM, LOA or none. With an alarm the
    /// unit is lost, and a count of the row is at its limit.
    pub fn polled(self, outcome: Outcome) -> (Row, Option<AlarmKind>)
        requires { IsBelowEachLimit (counts_in self.phase self.waiting) }
        ensures row { result.0 ≡ row_polled self outcome }
        ensures alarm { result.1 ≡ alarm_polled self outcome }
        ensures goes_on { IfNone result.1 (IsBelowEachLimit (counts_polled self outcome)) }
    {
        let (counts, alarm) = self.count_poll(outcome);
        let mut row = self;
        row.set_counts(counts);
        (row, alarm)
    }

    /// Gives the unit a further Alloc-ID, which it has still to acknowledge.
    pub fn with_alloc(self, alloc: u16) -> Row
        requires { map.len self.allocs < max_allocs }
        ensures { result ≡ row_with_alloc self alloc }
    {
        let mut allocs = self.allocs;
        allocs.insert(alloc, false);
        Row {
            allocs,
            pending: Some(alloc),
            waiting: 0,
            ..self
        }
    }

    /// Begins to take back one of the unit's further Alloc-IDs, which it has still to acknowledge.
    pub fn releasing(self, alloc: u16) -> Row
        requires { IsTrue (has_alloc alloc self) }
        ensures { result ≡ row_releasing self alloc }
    {
        let mut allocs = self.allocs;
        allocs.insert(alloc, true);
        Row {
            allocs,
            pending: Some(alloc),
            waiting: 0,
            ..self
        }
    }

    /// Ends what is pending, which the unit acknowledged: an Alloc-ID that was leaving is not the unit's any more.
    pub fn acknowledged(self, alloc: u16) -> Row
        ensures { result ≡ row_acknowledged self alloc }
    {
        let mut allocs = self.allocs;
        if allocs.get(alloc) == Some(true) {
            allocs.remove(alloc);
        }
        Row {
            allocs,
            pending: None,
            waiting: 0,
            ..self
        }
    }

    /// Makes an operating unit range anew (POPUP to all units); it keeps its Alloc-IDs and what is pending. A ranging
    /// unit stays as it is.
    pub fn popped_up(self) -> Row
        ensures { result ≡ row_popped_up self self.phase }
    {
        match self.phase {
            Phase::Ranging { .. } => self,
            Phase::Operating { .. } => Row {
                phase: Phase::ranging(),
                ..self
            },
        }
    }
}
