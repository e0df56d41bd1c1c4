//! Worked logs: which windows are answered, and by whom twice.
use crate::GrantBook;
use crate::tests::Said::{Asks, Gives, Idle, Poll, Range, Search};
use gp_ploam::{Serial, Up};
use gp_ranging::Grant;
use hear_rules::Verdict;
use hear_rules::Verdict::{Broken, Kept, NotJudged};
use std::process::Abort;
use std::rt::HostRuntime;
use std::test::Fail;

/// For how many frames behind a window it may be answered.
const GRACE: u32 = 10;

/// What is said, in short: an ONU-ID, and what belongs to it.
#[derive(Clone, Copy, Debug)]
enum Said {
    Search,
    Range(u8),
    Poll(u8),
    /// This unit asks for an ONU-ID.
    Asks(u8),
    /// A unit gives its serial number with an ONU-ID.
    Gives(u8, u8),
    /// A unit with this ONU-ID has nothing to say.
    Idle(u8),
}

/// In which frame it is said, and what `twice` has to say of it.
struct Step(u64, Said, Verdict);

/// A unit gives its serial number.
fn given(onu: u8, last: u8) -> Up {
    Up::SerialNumber {
        onu,
        serial: Serial([b'A', b'B', b'C', b'D', 0, 0, 0, last]),
        random: 0,
        flags: 0,
    }
}

/// The message of a unit.
fn message(said: Said) -> Up {
    match said {
        Asks(last) => given(255, last),
        Gives(onu, last) => given(onu, last),
        Search => Up::NoMessage { onu: 255 },
        Idle(onu) | Range(onu) | Poll(onu) => Up::NoMessage { onu },
    }
}

/// The window that is opened, if one is.
fn opened(said: Said) -> Option<Grant> {
    match said {
        Search => Some(Grant::Search),
        Range(onu) => Some(Grant::Range(onu)),
        Poll(onu) => Some(Grant::Poll(onu)),
        _ => None,
    }
}

/// Plays steps, and compares what `twice` says.
fn play(
    rt: &impl Abort,
    mut book: GrantBook,
    begun: Option<u64>,
    steps: &[Step],
) -> Result<(), Fail> {
    for Step(now, said, verdict) in steps {
        match opened(*said) {
            Some(grant) => book.grant(*now, grant)?,
            None => {
                let message = message(*said);
                let told = book.twice(GRACE, begun, *now, &message);
                assert_eq!(rt; told, *verdict, "{:?} in frame {}", said, now);
                book.answer(GRACE, *now, &message)?;
            }
        }
    }
    Ok(())
}

/// Every unit may answer a search, and once; a window for one ONU-ID has one answer.
const ANSWERS: [Step; 12] = [
    Step(1, Search, NotJudged),
    Step(2, Asks(1), Kept),
    Step(2, Asks(2), Kept),
    Step(3, Asks(1), Broken),
    Step(4, Range(5), NotJudged),
    Step(5, Gives(5, 1), Kept),
    Step(6, Gives(5, 1), Broken),
    Step(7, Idle(5), NotJudged),
    Step(8, Poll(5), NotJudged),
    Step(9, Idle(5), Kept),
    Step(9, Idle(5), Broken),
    Step(30, Idle(5), NotJudged),
];

/// Who answers one search answered those before it; two windows may have two answers.
const SEARCHES: [Step; 9] = [
    Step(1, Search, NotJudged),
    Step(2, Search, NotJudged),
    Step(3, Asks(1), Kept),
    Step(4, Asks(1), Kept),
    Step(5, Asks(1), Broken),
    Step(6, Asks(2), Kept),
    Step(12, Asks(2), Kept),
    Step(12, Asks(2), Broken),
    Step(13, Asks(2), NotJudged),
];

/// In the first frames of a log that may begin in the middle the window may have come before.
const FIRST: [Step; 5] = [
    Step(101, Poll(7), NotJudged),
    Step(102, Idle(7), NotJudged),
    Step(110, Idle(7), NotJudged),
    Step(111, Idle(7), Broken),
    Step(112, Idle(7), NotJudged),
];

#[test]
fn answers(rt: HostRuntime) -> Result<(), Fail> {
    play(&rt, GrantBook::begin(rt.alloc()), None, &ANSWERS)
}

#[test]
fn searches(rt: HostRuntime) -> Result<(), Fail> {
    play(&rt, GrantBook::begin(rt.alloc()), None, &SEARCHES)
}

#[test]
fn first(rt: HostRuntime) -> Result<(), Fail> {
    play(&rt, GrantBook::begin(rt.alloc()), Some(100), &FIRST)
}

/// Of more than 64 windows of the last frames the first isn't kept, so nothing is judged until those frames are over.
#[test]
fn lost(rt: HostRuntime) -> Result<(), Fail> {
    let mut book = GrantBook::begin(rt.alloc());
    let idle = Up::NoMessage { onu: 9 };
    for _ in 0..64 {
        book.grant(1, Grant::Poll(9))?;
    }
    assert_eq!(rt; book.twice(GRACE, None, 2, &idle), Kept);
    book.grant(2, Grant::Poll(9))?;
    assert_eq!(rt; book.twice(GRACE, None, 11, &idle), NotJudged);
    assert_eq!(rt; book.twice(GRACE, None, 12, &idle), Kept);
    book.answer(GRACE, 12, &idle)?;
    assert_eq!(rt; book.twice(GRACE, None, 12, &idle), Broken);
    Ok(())
}
