//! Worked runs of one port: no step of them takes memory, so they come out the same whatever the allocator refuses
//! after the port was opened.
ghost use Rattle.std.specs.Prelude.{◌≡◌};

use super::lines::{Numbers, Played, USUAL, Wrong};
use super::parts::Part;
use gp_licence::MAX_LICENCES;
use gp_port::OpenFault;
use std::alloc::Global;
use std::marker::Brand;
use std::sync::ledger::{Blank, Ledger};

/// One unit at most on the port.
const ONE: Numbers = Numbers {
    max_units: 1,
    alloc_last: 4095,
    quarantine: 800,
};

/// The same, and a freed ONU-ID is free at once.
const ONE_AT_ONCE: Numbers = Numbers {
    max_units: 1,
    alloc_last: 4095,
    quarantine: 0,
};

const AT_ONCE: Numbers = Numbers {
    max_units: 254,
    alloc_last: 4095,
    quarantine: 0,
};

/// One further Alloc-ID on the port.
const ONE_ALLOC: Numbers = Numbers {
    max_units: 254,
    alloc_last: 256,
    quarantine: 800,
};

/// The runs by their names, each made of parts.
const RUNS: [(&'static str, Numbers, [Part; 4]); 13] = [
    (
        "as far as may be",
        USUAL,
        [
            Part::Searches,
            Part::FindsA,
            Part::AsFarAsMayBe,
            Part::Nothing,
        ],
    ),
    (
        "too far",
        USUAL,
        [Part::Searches, Part::FindsA, Part::TooFar, Part::Nothing],
    ),
    (
        "silent",
        USUAL,
        [Part::Searches, Part::FindsA, Part::Silent, Part::Nothing],
    ),
    (
        "repeated",
        USUAL,
        [Part::Searches, Part::Repeated, Part::Nothing, Part::Nothing],
    ),
    (
        "B at 0",
        ONE_AT_ONCE,
        [Part::Searches, Part::OneAtMost, Part::BAt0, Part::Nothing],
    ),
    (
        "B at 1",
        ONE,
        [Part::Searches, Part::OneAtMost, Part::BAt1, Part::Nothing],
    ),
    (
        "dark and garbled",
        USUAL,
        [
            Part::Searches,
            Part::FindsA,
            Part::RangesA,
            Part::DarkAndGarbled,
        ],
    ),
    (
        "polls in turn",
        USUAL,
        [
            Part::Searches,
            Part::FindsTwo,
            Part::PollsInTurn,
            Part::Nothing,
        ],
    ),
    (
        "one Alloc-ID",
        ONE_ALLOC,
        [
            Part::Searches,
            Part::FindsTwo,
            Part::OneAllocId,
            Part::Nothing,
        ],
    ),
    (
        "A at 0",
        AT_ONCE,
        [Part::Searches, Part::FindsA, Part::Disabled, Part::AAt0],
    ),
    (
        "A at 1",
        USUAL,
        [Part::Searches, Part::FindsA, Part::Disabled, Part::AAt1],
    ),
    (
        "full queue",
        USUAL,
        [Part::Searches, Part::FindsA, Part::RangesA, Part::FullQueue],
    ),
    (
        "eight Alloc-IDs",
        USUAL,
        [
            Part::Searches,
            Part::FindsA,
            Part::RangesA,
            Part::EightAllocIds,
        ],
    ),
];

/// Plays a run on a new port, and gives the first part that it answers otherwise.
fn wrong_in_run<L: Ledger>(
    alloc: Global,
    blank: Blank,
    numbers: Numbers,
    parts: &[Part],
) -> Result<Wrong, OpenFault>
    requires name { blank.name ≡ L.name }
    requires parts { (blank.parts ≡ L.parts) × (L.parts ≡ MAX_LICENCES) }
{
    let mut played = Played::<L>::begin(alloc, blank, numbers)?;
    let wrong = played.first_wrong(parts);
    played.close();
    Ok(wrong)
}

/// The same with a new ledger.
fn wrong_in(alloc: Global, numbers: Numbers, parts: &[Part]) -> Result<Wrong, OpenFault> {
    let blank = Blank::new(u64::from(MAX_LICENCES));
    wrong_in_run::<Brand>(alloc, blank, numbers, parts)
}

/// Tells whether a run is played without a wrong part, or memory for the port was refused.
fn is_played_or_told(alloc: Global, numbers: Numbers, parts: &[Part]) -> bool {
    match wrong_in(alloc, numbers, parts) {
        Ok(wrong) => wrong.is_none(),
        Err(fault) => fault == OpenFault::OutOfMemory,
    }
}

#[test]
fn worked_runs(rt: HostRuntime) {
    for (name, numbers, parts) in &RUNS {
        assert!(rt; is_played_or_told(rt.alloc(), *numbers, parts), "{name}");
    }
}
