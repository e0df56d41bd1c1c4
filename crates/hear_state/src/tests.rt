//! Worked cases: what is judged of what is said, in its order, from the first message on or from the middle on.
ghost use Rattle.gp_watch.specs.Heard.{IsFitting};

use crate::tests::Said::{Alloc, Asks, Assign, Deactivate, Gives, Range, Search};
use crate::{Knowledge, Settings};
use gp_ploam::{Down, Serial, Up};
use gp_ranging::Grant;
use gp_watch::Heard;
use hear_rules::Verdict::{Broken, Kept, NotJudged};
use hear_rules::{Rule, Verdict};
use std::process::Abort;
use std::test::Fail;

/// What delays are judged by.
const SETTINGS: Settings = Settings {
    teqd: 350_000,
    tolerance: 8,
    drift: 8,
    grace: 10,
};

/// What is said, in short: an ONU-ID, and what belongs to it.
#[derive(Clone, Copy, Debug)]
enum Said {
    Search,
    /// This unit asks for an ONU-ID.
    Asks(u8),
    /// A unit gives its serial number with an ONU-ID.
    Gives(u8, u8),
    Assign(u8, u8),
    Range(u8, u32),
    /// The Alloc-ID is so many above 256.
    Alloc(u8, u8, bool),
    Deactivate(u8),
}

/// What is said, and what a rule has to say of it.
struct Step(Said, Rule, Verdict);

/// A serial number.
fn serial(last: u8) -> Serial {
    Serial([b'A', b'B', b'C', b'D', 0, 0, 0, last])
}

/// A unit gives its serial number.
fn given(onu: u8, last: u8) -> Heard
    ensures { IsFitting result }
{
    Heard::Up {
        message: Some(Up::SerialNumber {
            onu,
            serial: serial(last),
            random: 0,
            flags: 0,
        }),
        delay: Some(1000),
    }
}

/// What is heard of it.
fn heard(said: Said) -> Heard
    ensures { IsFitting result }
{
    match said {
        Search => Heard::Grant(Grant::Search),
        Asks(last) => given(255, last),
        Gives(onu, last) => given(onu, last),
        Assign(onu, last) => Heard::Down(Some(Down::AssignOnu {
            onu,
            serial: serial(last),
        })),
        Range(onu, eqd) => Heard::Down(Some(Down::RangingTime { onu, eqd })),
        Alloc(onu, above, keep) => Heard::Down(Some(Down::AssignAlloc {
            onu,
            alloc: 256 + u16::from(above),
            keep,
        })),
        Deactivate(onu) => Heard::Down(Some(Down::Deactivate { onu })),
    }
}

/// Plays steps, and compares what the rules say.
fn play(rt: &impl Abort, mut known: Knowledge, steps: &[Step]) -> Result<(), Fail> {
    for step in steps {
        let heard = heard(step.0);
        let told = known.judge(&SETTINGS, &heard, step.1);
        assert_eq!(rt; told, step.2, "{:?} of {:?}", step.1, step.0);
        known.hear(&heard)?;
    }
    Ok(())
}

/// An ONU-ID is given once for each time that its unit asks, and to one unit alone.
const ASSIGNMENTS: [Step; 9] = [
    Step(Search, Rule::Overhead, Broken),
    Step(Asks(1), Rule::Unasked, NotJudged),
    Step(Assign(3, 1), Rule::Unasked, Kept),
    Step(Assign(3, 1), Rule::Unasked, NotJudged),
    Step(Assign(3, 2), Rule::Taken, Broken),
    Step(Assign(4, 2), Rule::Renumbered, Broken),
    Step(Range(3, 349_000), Rule::Nobody, Broken),
    Step(Assign(3, 1), Rule::Unasked, Broken),
    Step(Assign(254, 3), Rule::Range, Broken),
];

/// A delay is what the answers of its unit leave of the equalized one.
const DELAYS: [Step; 9] = [
    Step(Asks(1), Rule::Unasked, NotJudged),
    Step(Assign(3, 1), Rule::Taken, Kept),
    Step(Range(3, 349_000), Rule::Unranged, Broken),
    Step(Gives(3, 2), Rule::Delay, NotJudged),
    Step(Range(3, 349_100), Rule::Unranged, Broken),
    Step(Gives(3, 1), Rule::Delay, NotJudged),
    Step(Range(3, 349_009), Rule::Delay, Broken),
    Step(Range(3, 349_008), Rule::Delay, Kept),
    Step(Range(3, 350_001), Rule::Delay, Broken),
];

/// An Alloc-ID is one unit's, until it is taken back, or the unit loses it.
const ALLOC_IDS: [Step; 12] = [
    Step(Asks(1), Rule::Unasked, NotJudged),
    Step(Asks(2), Rule::Unasked, NotJudged),
    Step(Assign(3, 1), Rule::Barred, Kept),
    Step(Assign(4, 2), Rule::Barred, Kept),
    Step(Alloc(3, 44, true), Rule::Early, Broken),
    Step(Alloc(4, 44, true), Rule::Shared, Broken),
    Step(Alloc(3, 44, false), Rule::NotHeld, Kept),
    Step(Alloc(3, 45, false), Rule::NotHeld, Broken),
    Step(Deactivate(4), Rule::Nobody, NotJudged),
    Step(Alloc(3, 44, true), Rule::Shared, Kept),
    Step(Deactivate(255), Rule::Nobody, NotJudged),
    Step(Alloc(3, 44, true), Rule::Nobody, Broken),
];

/// In the middle nothing is judged by what is unknown.
const MIDWAY: [Step; 12] = [
    Step(Search, Rule::Overhead, NotJudged),
    Step(Range(3, 349_000), Rule::Nobody, NotJudged),
    Step(Asks(1), Rule::Unasked, NotJudged),
    Step(Assign(3, 1), Rule::Unasked, NotJudged),
    Step(Range(3, 349_000), Rule::Unranged, Broken),
    Step(Assign(4, 2), Rule::Taken, NotJudged),
    Step(Alloc(4, 44, true), Rule::Early, NotJudged),
    Step(Alloc(3, 44, true), Rule::Shared, Broken),
    Step(Alloc(3, 44, false), Rule::NotHeld, Kept),
    Step(Alloc(4, 45, true), Rule::Range, Kept),
    Step(Assign(4, 2), Rule::Taken, NotJudged),
    Step(Alloc(4, 45, false), Rule::NotHeld, NotJudged),
];

#[test]
fn assignments(rt: HostRuntime) -> Result<(), Fail> {
    play(&rt, Knowledge::begin_whole(rt.alloc())?, &ASSIGNMENTS)
}

#[test]
fn delays(rt: HostRuntime) -> Result<(), Fail> {
    play(&rt, Knowledge::begin_whole(rt.alloc())?, &DELAYS)
}

#[test]
fn alloc_ids(rt: HostRuntime) -> Result<(), Fail> {
    play(&rt, Knowledge::begin_whole(rt.alloc())?, &ALLOC_IDS)
}

#[test]
fn midway(rt: HostRuntime) -> Result<(), Fail> {
    play(&rt, Knowledge::begin_midway(rt.alloc())?, &MIDWAY)
}
