//! What no clause says: worked runs of a chassis, what it may be opened with, and that memory suffices or is told.
//! `lines.rt` plays a chassis by lines.
ghost use Rattle.std.specs.Prelude.{◌≡◌};

mod lines;

use self::lines::{Answer, Call, Line, Way, play};
use super::units::{A, A_RANGED, NOTHING, SEARCH, Said, chassis_of};
use gp_alarms::AlarmKind;
use gp_chassis::{ChassisCore, CoreFault, MAX_JOURNAL_LIMIT};
use gp_licence::MAX_LICENCES;
use gp_machine::{Command, Event, Refusal};
use gp_port::OpenFault;
use std::alloc::Global;
use std::marker::Brand;
use std::sync::ledger::{Blank, Ledger};

const SEARCHING: Answer = Ok((Some(Said::Searching), None, 0, 0));

const TICKED: Answer = Ok((Some(Said::Ticked), None, 0, 0));

/// A frame that opens a window.
const OPENED: Answer = Ok((Some(Said::Ticked), None, 1, 0));

const NO_LICENCE: Answer = Ok((Some(Said::Refused(Refusal::NoLicence)), None, 0, 0));

const BUSY: Answer = Ok((Some(Said::Refused(Refusal::Busy)), None, 0, 0));

/// Two actors and one licence: the unit is found once the one who has it in hand has given it.
const ACTORS_HANDS: &[Line] = &[
    (1, Call::Apply(0, SEARCH), SEARCHING),
    (4, Call::Apply(0, Event::Frame), TICKED),
    (1, Call::Apply(0, Event::Frame), OPENED),
    (1, Call::Take(0), Ok((None, None, 1, 0))),
    (1, Call::Take(1), Ok((None, None, 0, 0))),
    (1, Call::Step(1, 0, 1), NO_LICENCE),
    (1, Call::Give(0), Ok((None, None, 0, 0))),
    (1, Call::Take(1), Ok((None, None, 1, 0))),
    (
        1,
        Call::Step(1, 0, 1),
        Ok((Some(Said::Found(0)), None, 0, 0)),
    ),
    (1, Call::Free, Ok((None, None, 0, 0))),
];

/// There are 64 actors and two ports; who has no number is told first.
const NOBODY: &[Line] = &[
    (1, Call::Take(64), Err(CoreFault::NoActor)),
    (1, Call::Give(64), Err(CoreFault::NoActor)),
    (1, Call::Step(64, 2, 1), Err(CoreFault::NoActor)),
    (1, Call::Step(63, 2, 1), Err(CoreFault::NoPort)),
    (1, Call::Apply(2, Event::Frame), Err(CoreFault::NoPort)),
    (1, Call::Free, Ok((None, None, 1, 0))),
];

/// The one licence of two ports goes to the first unit that is admitted.
const LAST_LICENCE: &[Line] = &[
    (1, Call::Apply(0, SEARCH), SEARCHING),
    (4, Call::Apply(0, Event::Frame), TICKED),
    (1, Call::Apply(0, Event::Frame), OPENED),
    (1, Call::Apply(1, SEARCH), SEARCHING),
    (4, Call::Apply(1, Event::Frame), TICKED),
    (1, Call::Apply(1, Event::Frame), OPENED),
    (
        1,
        Call::Hear(0, 3),
        Ok((Some(Said::Refused(Refusal::NotAdmitted)), None, 0, 0)),
    ),
    (1, Call::Free, Ok((None, None, 1, 0))),
    (1, Call::Hear(0, 2), Ok((Some(Said::Found(0)), None, 0, 0))),
    (1, Call::Free, Ok((None, None, 0, 0))),
    (1, Call::Hear(1, 3), NO_LICENCE),
];

/// Five windows of a search find 254 units, 63 in each of the first four: with a 64th more than 189 copies would be
/// owed. They take all licences and all ONU-IDs.
const FULL_CHASSIS: &[Line] = &[
    (1, Call::Apply(0, SEARCH), SEARCHING),
    (1, Call::Apply(1, SEARCH), SEARCHING),
    (4, Call::Apply(0, Event::Frame), TICKED),
    (1, Call::Apply(0, Event::Frame), OPENED),
    (63, Call::Hear(0, 1), Ok((Some(Said::Found(0)), None, 0, 0))),
    (1, Call::Hear(0, 64), BUSY),
    (189, Call::Apply(0, Event::Frame), TICKED),
    (1, Call::Apply(0, Event::Frame), OPENED),
    (
        63,
        Call::Hear(0, 64),
        Ok((Some(Said::Found(63)), None, 0, 0)),
    ),
    (189, Call::Apply(0, Event::Frame), TICKED),
    (1, Call::Apply(0, Event::Frame), OPENED),
    (
        63,
        Call::Hear(0, 127),
        Ok((Some(Said::Found(126)), None, 0, 0)),
    ),
    (189, Call::Apply(0, Event::Frame), TICKED),
    (1, Call::Apply(0, Event::Frame), OPENED),
    (
        63,
        Call::Hear(0, 190),
        Ok((Some(Said::Found(189)), None, 0, 0)),
    ),
    (189, Call::Apply(0, Event::Frame), TICKED),
    (1, Call::Apply(0, Event::Frame), OPENED),
    (
        2,
        Call::Hear(0, 253),
        Ok((Some(Said::Found(252)), None, 0, 0)),
    ),
    (1, Call::Free, Ok((None, None, 0, 0))),
    (4, Call::Apply(1, Event::Frame), TICKED),
    (1, Call::Apply(1, Event::Frame), OPENED),
    (1, Call::Hear(1, 300), NO_LICENCE),
    (
        1,
        Call::Hear(0, 255),
        Ok((Some(Said::Refused(Refusal::NoId)), None, 0, 0)),
    ),
];

/// A hundred licences and a hundred and twenty-eight units that all answer at once.
const STORM: &[Line] = &[
    (1, Call::Apply(0, SEARCH), SEARCHING),
    (4, Call::Apply(0, Event::Frame), TICKED),
    (1, Call::Apply(0, Event::Frame), OPENED),
    (1, Call::Apply(1, SEARCH), SEARCHING),
    (4, Call::Apply(1, Event::Frame), TICKED),
    (1, Call::Apply(1, Event::Frame), OPENED),
    (63, Call::Hear(0, 0), Ok((Some(Said::Found(0)), None, 0, 0))),
    (1, Call::Hear(0, 63), BUSY),
    (
        37,
        Call::Hear(1, 100),
        Ok((Some(Said::Found(0)), None, 0, 0)),
    ),
    (26, Call::Hear(1, 137), NO_LICENCE),
    (1, Call::Hear(0, 63), NO_LICENCE),
];

/// A journal of three entries is full with the fourth; once it is cut the numbers go on.
const FULL_JOURNAL: &[Line] = &[
    (3, Call::Apply(0, Event::Frame), TICKED),
    (1, Call::Apply(0, Event::Frame), Err(CoreFault::JournalFull)),
    (1, Call::Apply(1, Event::Frame), TICKED),
    (1, Call::Cut(0), Ok((None, None, 0, 3))),
    (2, Call::Apply(0, Event::Frame), TICKED),
    (1, Call::Cut(0), Ok((None, None, 3, 2))),
];

/// An Alloc-ID of A is not acknowledged in three polls, while commands fill the queue; each event is served.
const FULL_QUEUE: &[Line] = &[
    (1, Call::Apply(0, SEARCH), SEARCHING),
    (4, Call::Apply(0, Event::Frame), TICKED),
    (1, Call::Apply(0, Event::Frame), OPENED),
    (1, Call::Hear(0, 1), Ok((Some(Said::Found(0)), None, 0, 0))),
    (3, Call::Apply(0, Event::Frame), TICKED),
    (1, Call::Apply(0, Event::Frame), OPENED),
    (
        1,
        Call::Apply(0, A_RANGED),
        Ok((Some(Said::Ranged(0, 211_040)), None, 0, 0)),
    ),
    (4, Call::Apply(0, Event::Frame), TICKED),
    (
        1,
        Call::Apply(0, Event::Command(Command::Alloc(A))),
        Ok((Some(Said::Allocated(256)), None, 0, 0)),
    ),
    (3, Call::Apply(0, Event::Frame), TICKED),
    (1, Call::Apply(0, Event::Frame), OPENED),
    (
        1,
        Call::Apply(0, NOTHING),
        Ok((Some(Said::Alive(0)), None, 0, 0)),
    ),
    (1, Call::Apply(0, Event::Frame), OPENED),
    (
        1,
        Call::Apply(0, NOTHING),
        Ok((Some(Said::Alive(0)), None, 0, 0)),
    ),
    (1, Call::Apply(0, Event::Frame), OPENED),
    (
        63,
        Call::Apply(0, Event::Command(Command::EnableAll)),
        Ok((Some(Said::EnabledAll), None, 0, 0)),
    ),
    (1, Call::Owed(0), Ok((None, None, 189, 0))),
    (1, Call::Apply(0, Event::Command(Command::EnableAll)), BUSY),
    (1, Call::Owed(0), Ok((None, None, 189, 0))),
    (
        1,
        Call::Apply(0, NOTHING),
        Ok((Some(Said::Alive(0)), Some(AlarmKind::Loa), 0, 0)),
    ),
    (1, Call::Owed(0), Ok((None, None, 192, 0))),
];

/// Each call that takes memory: a journal that is cut takes some for its next entry. The unit 1 is found with a
/// licence in hand.
const EACH_CALL: &[Line] = &[
    (1, Call::Apply(0, SEARCH), SEARCHING),
    (4, Call::Apply(0, Event::Frame), TICKED),
    (1, Call::Apply(0, Event::Frame), OPENED),
    (1, Call::Cut(0), Ok((None, None, 0, 6))),
    (1, Call::Take(1), Ok((None, None, 1, 0))),
    (
        1,
        Call::Step(1, 0, 1),
        Ok((Some(Said::Found(0)), None, 0, 0)),
    ),
    (1, Call::Cut(0), Ok((None, None, 6, 1))),
    (1, Call::Hear(0, 2), NO_LICENCE),
    (1, Call::Cut(0), Ok((None, None, 7, 1))),
    (1, Call::Apply(0, Event::Frame), TICKED),
    (1, Call::Free, Ok((None, None, 0, 0))),
];

/// A chassis and what it is asked: its licences, how many entries its journals keep, how many windows a search has,
/// and the units that each port admits, so many from this one on.
type Run = (
    &'static str,
    (u32, u32, u8),
    &'static [(u16, u16)],
    &'static [Line],
);

/// Two ports: the first admits the units 1 and 2, the second unit 3.
const TWO_PORTS: &[(u16, u16)] = &[(1, 2), (3, 1)];

/// The first port admits one unit more than there are ONU-IDs.
const ONE_TOO_MANY: &[(u16, u16)] = &[(1, 255), (300, 1)];

/// Sixteen ports, of which the first two admit 64 units each.
const SIXTEEN_PORTS: &[(u16, u16)] = &[
    (0, 64),
    (100, 64),
    (0, 0),
    (0, 0),
    (0, 0),
    (0, 0),
    (0, 0),
    (0, 0),
    (0, 0),
    (0, 0),
    (0, 0),
    (0, 0),
    (0, 0),
    (0, 0),
    (0, 0),
    (0, 0),
];

const RUNS: &[Run] = &[
    ("actors' hands", (1, 100, 3), TWO_PORTS, ACTORS_HANDS),
    ("nobody", (1, 100, 3), TWO_PORTS, NOBODY),
    ("last licence", (1, 100, 3), TWO_PORTS, LAST_LICENCE),
    (
        "full chassis",
        (254, MAX_JOURNAL_LIMIT, 5),
        ONE_TOO_MANY,
        FULL_CHASSIS,
    ),
    ("storm", (100, MAX_JOURNAL_LIMIT, 3), SIXTEEN_PORTS, STORM),
    ("full journal", (1, 3, 3), TWO_PORTS, FULL_JOURNAL),
    (
        "full queue",
        (1, MAX_JOURNAL_LIMIT, 1),
        TWO_PORTS,
        FULL_QUEUE,
    ),
    ("most licences", (4064, 1_000_000, 3), TWO_PORTS, &[]),
];

const EACH_CALL_RUN: Run = ("each call", (1, 100, 3), TWO_PORTS, EACH_CALL);

const WAYS: [Way; 2] = [Way::Receipt, Way::Kept];

/// What no chassis is opened with.
const LIMITS: &[Run] = &[
    ("a licence too many", (4065, 1, 3), TWO_PORTS, &[]),
    ("no entry", (1, 0, 3), TWO_PORTS, &[]),
    ("an entry too many", (1, 1_000_001, 3), TWO_PORTS, &[]),
    (
        "a unit on two ports",
        (1, 1, 3),
        &[(1, 2), (3, 1), (2, 1)],
        &[],
    ),
    ("no port", (1, 1, 3), &[], &[]),
    ("a port too many", (1, 1, 3), SEVENTEEN_PORTS, &[]),
];

const SEVENTEEN_PORTS: &[(u16, u16)] = &[
    (0, 1),
    (1, 1),
    (2, 1),
    (3, 1),
    (4, 1),
    (5, 1),
    (6, 1),
    (7, 1),
    (8, 1),
    (9, 1),
    (10, 1),
    (11, 1),
    (12, 1),
    (13, 1),
    (14, 1),
    (15, 1),
    (16, 1),
];

/// Opens a chassis, and plays a run on it.
fn outcome_of<L: Ledger>(
    alloc: Global,
    blank: Blank,
    run: &Run,
    way: Way,
    tries: u8,
) -> Result<Option<usize>, OpenFault>
    requires name { blank.name ≡ L.name }
    requires parts { (blank.parts ≡ L.parts) × (L.parts ≡ MAX_LICENCES) }
{
    let (licences, journal_limit, cycles) = run.1;
    let config = chassis_of(alloc, licences, journal_limit, cycles, run.2)?;
    let mut core = ChassisCore::<L>::begin(alloc, blank, &config)?;
    let wrong = play(alloc, &mut core, run.3, way, tries);
    core.close();
    Ok(wrong)
}

/// The same with a new ledger.
fn outcome(alloc: Global, run: &Run, way: Way, tries: u8) -> Result<Option<usize>, OpenFault> {
    outcome_of::<Brand>(alloc, Blank::new(u64::from(MAX_LICENCES)), run, way, tries)
}

#[test]
fn worked_runs(rt: HostRuntime) {
    for run in RUNS {
        for way in &WAYS {
            assert!(rt; outcome(rt.alloc(), run, *way, 1) == Ok(None), "{}", run.0);
        }
    }
}

#[test]
fn limits(rt: HostRuntime) {
    for run in LIMITS {
        assert!(rt;
            outcome(rt.alloc(), run, Way::Receipt, 1) == Err(OpenFault::Limit),
            "{}",
            run.0
        );
    }
}

/// The same with two tries of each call, and once more where memory for the chassis was refused.
fn outcome_at_last(alloc: Global, run: &Run, way: Way) -> Result<Option<usize>, OpenFault> {
    match outcome(alloc, run, way, 2) {
        Err(OpenFault::OutOfMemory) => outcome(alloc, run, way, 2),
        found => found,
    }
}

// Passes whichever one request for memory is refused, and with ample memory (`rt try --test --fail-alloc N`).
#[test]
fn memory_short_or_ample(rt: HostRuntime) {
    for way in &WAYS {
        assert!(rt; outcome_at_last(rt.alloc(), &EACH_CALL_RUN, *way) == Ok(None));
    }
}
