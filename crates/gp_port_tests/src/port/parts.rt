//! The parts that runs are made of, by their lines.
use super::lines::{
    A, A_ACKNOWLEDGES, A_HAS_NOTHING, A_RANGED, A_SEARCHED, B, B_RANGED, B_SEARCHED, C, D,
    D_SEARCHED, FAR, Line, RANGED_A, RANGING_TIME,
};
use gp_alarms::AlarmKind;
use gp_machine::{Command, Refusal, Reply};
use gp_ploam::Down;
use gp_ranging::Grant;

/// A part of a run.
#[derive(Clone, Copy, PartialEq, Eq)]
pub(super) enum Part {
    Searches,
    FindsA,
    RangesA,
    AsFarAsMayBe,
    TooFar,
    Silent,
    Repeated,
    OneAtMost,
    BAt0,
    BAt1,
    DarkAndGarbled,
    FindsTwo,
    PollsInTurn,
    OneAllocId,
    Disabled,
    AAt0,
    AAt1,
    FullQueue,
    EightAllocIds,
    AllAtOnce,
    /// No line.
    Nothing,
}

/// How most runs begin.
pub(super) const BEGINNINGS: [(Part, Line); 8] = [
    // A port in which a search window opens.
    (
        Part::Searches,
        Line::Asked(1, Command::Search, Reply::Searching),
    ),
    (Part::Searches, Line::Frames(5, Some(Grant::Search), None)),
    // A is found there, and the window in which it is ranged opens. There is one search window in a search.
    (
        Part::FindsA,
        Line::Heard(FAR, A_SEARCHED, Reply::Found(0), None),
    ),
    (
        Part::FindsA,
        Line::Sends(3, Down::AssignOnu { onu: 0, serial: A }),
    ),
    (Part::FindsA, Line::Frames(1, Some(Grant::Range(0)), None)),
    // A is ranged there, and the port is in standby, with nothing owed and no window.
    (Part::RangesA, Line::Heard(FAR, A_RANGED, RANGED_A, None)),
    (Part::RangesA, Line::Sends(3, RANGING_TIME)),
    (Part::RangesA, Line::Frames(1, None, None)),
];

/// Units that are found and ranged, or are not.
pub(super) const RANGING: [(Part, Line); 16] = [
    // A delay as long as the equalized one leaves nothing to equalize.
    (
        Part::AsFarAsMayBe,
        Line::Heard(311_040, A_RANGED, Reply::Ranged { onu: 0, eqd: 0 }, None),
    ),
    // One bit time more, in both ranging windows.
    (
        Part::TooFar,
        Line::Heard(311_041, A_RANGED, Reply::TooFar(0), None),
    ),
    (Part::TooFar, Line::Frames(4, Some(Grant::Range(0)), None)),
    (
        Part::TooFar,
        Line::Heard(311_041, A_RANGED, Reply::TooFar(0), None),
    ),
    (Part::TooFar, Line::Frames(3, None, Some(AlarmKind::Suf))),
    (Part::TooFar, Line::Owes(3)),
    (Part::TooFar, Line::Sends(3, Down::Deactivate { onu: 0 })),
    (
        Part::TooFar,
        Line::Asked(1, Command::Show(A), Reply::Refused(Refusal::NotActive)),
    ),
    // Nothing in both ranging windows.
    (Part::Silent, Line::Frames(4, Some(Grant::Range(0)), None)),
    (Part::Silent, Line::Frames(3, None, None)),
    (Part::Silent, Line::Owes(3)),
    (Part::Silent, Line::Sends(3, Down::Deactivate { onu: 0 })),
    (
        Part::Silent,
        Line::Asked(1, Command::Show(A), Reply::Refused(Refusal::NotActive)),
    ),
    // A unit answers twice in one search window.
    (
        Part::Repeated,
        Line::Heard(FAR, A_SEARCHED, Reply::Found(0), None),
    ),
    (
        Part::Repeated,
        Line::Heard(FAR, B_SEARCHED, Reply::Found(1), None),
    ),
    (
        Part::Repeated,
        Line::Heard(FAR, A_SEARCHED, Reply::Repeat(0), None),
    ),
];

/// One unit at most, and a unit that is lost.
pub(super) const NUMBERS: [(Part, Line); 15] = [
    // One unit at most: the second is found once the first is removed.
    (
        Part::OneAtMost,
        Line::Heard(FAR, A_SEARCHED, Reply::Found(0), None),
    ),
    (
        Part::OneAtMost,
        Line::Heard(FAR, B_SEARCHED, Reply::Refused(Refusal::NoId), None),
    ),
    (
        Part::OneAtMost,
        Line::Asked(1, Command::Deactivate(A), Reply::Deactivated(0)),
    ),
    (
        Part::BAt0,
        Line::Heard(FAR, B_SEARCHED, Reply::Found(0), None),
    ),
    (
        Part::BAt1,
        Line::Heard(FAR, B_SEARCHED, Reply::Found(1), None),
    ),
    // Polls dark, dark, garbled, and dark four times: LOS with the close of the last, 27 frames after the first grant.
    (
        Part::DarkAndGarbled,
        Line::Frames(1, Some(Grant::Poll(0)), None),
    ),
    (
        Part::DarkAndGarbled,
        Line::Frames(4, Some(Grant::Poll(0)), None),
    ),
    (
        Part::DarkAndGarbled,
        Line::Frames(4, Some(Grant::Poll(0)), None),
    ),
    (Part::DarkAndGarbled, Line::Garbled),
    (
        Part::DarkAndGarbled,
        Line::Frames(4, Some(Grant::Poll(0)), None),
    ),
    (
        Part::DarkAndGarbled,
        Line::Frames(4, Some(Grant::Poll(0)), None),
    ),
    (
        Part::DarkAndGarbled,
        Line::Frames(4, Some(Grant::Poll(0)), None),
    ),
    (
        Part::DarkAndGarbled,
        Line::Frames(4, Some(Grant::Poll(0)), None),
    ),
    (
        Part::DarkAndGarbled,
        Line::Frames(3, None, Some(AlarmKind::Los)),
    ),
    (Part::DarkAndGarbled, Line::Owes(3)),
];

/// Two units at once.
pub(super) const TWO_UNITS: [(Part, Line); 24] = [
    // A and B are found in one window, and both are ranged.
    (
        Part::FindsTwo,
        Line::Heard(FAR, A_SEARCHED, Reply::Found(0), None),
    ),
    (
        Part::FindsTwo,
        Line::Heard(FAR, B_SEARCHED, Reply::Found(1), None),
    ),
    (Part::FindsTwo, Line::Frames(7, Some(Grant::Range(0)), None)),
    (Part::FindsTwo, Line::Heard(FAR, A_RANGED, RANGED_A, None)),
    (Part::FindsTwo, Line::Sends(3, RANGING_TIME)),
    (Part::FindsTwo, Line::Frames(1, Some(Grant::Range(1)), None)),
    (
        Part::FindsTwo,
        Line::Heard(
            FAR,
            B_RANGED,
            Reply::Ranged {
                onu: 1,
                eqd: 211_040,
            },
            None,
        ),
    ),
    (Part::FindsTwo, Line::Frames(4, None, None)),
    (Part::FindsTwo, Line::Owes(0)),
    // Both are asked in turn, every fourth frame.
    (
        Part::PollsInTurn,
        Line::Frames(1, Some(Grant::Poll(0)), None),
    ),
    (
        Part::PollsInTurn,
        Line::Frames(4, Some(Grant::Poll(1)), None),
    ),
    (
        Part::PollsInTurn,
        Line::Frames(4, Some(Grant::Poll(0)), None),
    ),
    // With one further Alloc-ID on the port: A gets it and gives it back, and then B gets it.
    (
        Part::OneAllocId,
        Line::Asked(1, Command::Alloc(A), Reply::Allocated(256)),
    ),
    (
        Part::OneAllocId,
        Line::Asked(1, Command::Alloc(B), Reply::Refused(Refusal::NoAlloc)),
    ),
    (
        Part::OneAllocId,
        Line::Asked(1, Command::Alloc(A), Reply::Refused(Refusal::PendingAlloc)),
    ),
    (
        Part::OneAllocId,
        Line::Frames(4, Some(Grant::Poll(0)), None),
    ),
    (
        Part::OneAllocId,
        Line::Heard(FAR, A_ACKNOWLEDGES, Reply::Acked(256), None),
    ),
    (
        Part::OneAllocId,
        Line::Asked(
            1,
            Command::Dealloc {
                serial: A,
                alloc: 257,
            },
            Reply::Refused(Refusal::NotHeld),
        ),
    ),
    (
        Part::OneAllocId,
        Line::Asked(
            1,
            Command::Dealloc {
                serial: A,
                alloc: 256,
            },
            Reply::Releasing(256),
        ),
    ),
    (
        Part::OneAllocId,
        Line::Asked(1, Command::Alloc(B), Reply::Refused(Refusal::NoAlloc)),
    ),
    (
        Part::OneAllocId,
        Line::Frames(4, Some(Grant::Poll(1)), None),
    ),
    (
        Part::OneAllocId,
        Line::Frames(4, Some(Grant::Poll(0)), None),
    ),
    (
        Part::OneAllocId,
        Line::Heard(FAR, A_ACKNOWLEDGES, Reply::Acked(256), None),
    ),
    (
        Part::OneAllocId,
        Line::Asked(1, Command::Alloc(B), Reply::Allocated(256)),
    ),
];

/// Commands, up to a full queue.
pub(super) const COMMANDS: [(Part, Line); 22] = [
    // A is disabled once it was ranged, answers a later search, and is enabled with all others.
    (Part::Disabled, Line::Heard(FAR, A_RANGED, RANGED_A, None)),
    (
        Part::Disabled,
        Line::Asked(1, Command::Disable(A), Reply::Disabled),
    ),
    (Part::Disabled, Line::Sends(3, RANGING_TIME)),
    (
        Part::Disabled,
        Line::Sends(3, Down::DisableSerial { serial: A }),
    ),
    (
        Part::Disabled,
        Line::Asked(1, Command::Search, Reply::Searching),
    ),
    (Part::Disabled, Line::Frames(6, Some(Grant::Search), None)),
    (
        Part::Disabled,
        Line::Heard(FAR, A_SEARCHED, Reply::DisabledSeen, Some(AlarmKind::Df)),
    ),
    (
        Part::Disabled,
        Line::Asked(1, Command::EnableAll, Reply::EnabledAll),
    ),
    (
        Part::AAt0,
        Line::Heard(FAR, A_SEARCHED, Reply::Found(0), None),
    ),
    (
        Part::AAt1,
        Line::Heard(FAR, A_SEARCHED, Reply::Found(1), None),
    ),
    // An Alloc-ID is not acknowledged in three polls, while commands fill the queue.
    (
        Part::FullQueue,
        Line::Asked(1, Command::Alloc(A), Reply::Allocated(256)),
    ),
    (Part::FullQueue, Line::Frames(4, Some(Grant::Poll(0)), None)),
    (
        Part::FullQueue,
        Line::Heard(FAR, A_HAS_NOTHING, Reply::Alive(0), None),
    ),
    (Part::FullQueue, Line::Frames(1, Some(Grant::Poll(0)), None)),
    (
        Part::FullQueue,
        Line::Heard(FAR, A_HAS_NOTHING, Reply::Alive(0), None),
    ),
    (Part::FullQueue, Line::Frames(1, Some(Grant::Poll(0)), None)),
    (
        Part::FullQueue,
        Line::Asked(63, Command::EnableAll, Reply::EnabledAll),
    ),
    (Part::FullQueue, Line::Owes(189)),
    (
        Part::FullQueue,
        Line::Asked(1, Command::EnableAll, Reply::Refused(Refusal::Busy)),
    ),
    (Part::FullQueue, Line::Owes(189)),
    (
        Part::FullQueue,
        Line::Heard(FAR, A_HAS_NOTHING, Reply::Alive(0), Some(AlarmKind::Loa)),
    ),
    (Part::FullQueue, Line::Owes(192)),
];

/// As many further Alloc-IDs as a unit may have.
pub(super) const EIGHT_ALLOC_IDS: [(Part, Line); 25] = [
    // A gets eight further Alloc-IDs, each acknowledged before the next. The ninth is one too many, whatever was
    // acknowledged.
    (
        Part::EightAllocIds,
        Line::Asked(1, Command::Alloc(A), Reply::Allocated(256)),
    ),
    (
        Part::EightAllocIds,
        Line::Frames(4, Some(Grant::Poll(0)), None),
    ),
    (
        Part::EightAllocIds,
        Line::Heard(FAR, A_ACKNOWLEDGES, Reply::Acked(256), None),
    ),
    (
        Part::EightAllocIds,
        Line::Asked(1, Command::Alloc(A), Reply::Allocated(257)),
    ),
    (
        Part::EightAllocIds,
        Line::Frames(4, Some(Grant::Poll(0)), None),
    ),
    (
        Part::EightAllocIds,
        Line::Heard(FAR, A_ACKNOWLEDGES, Reply::Acked(257), None),
    ),
    (
        Part::EightAllocIds,
        Line::Asked(1, Command::Alloc(A), Reply::Allocated(258)),
    ),
    (
        Part::EightAllocIds,
        Line::Frames(4, Some(Grant::Poll(0)), None),
    ),
    (
        Part::EightAllocIds,
        Line::Heard(FAR, A_ACKNOWLEDGES, Reply::Acked(258), None),
    ),
    (
        Part::EightAllocIds,
        Line::Asked(1, Command::Alloc(A), Reply::Allocated(259)),
    ),
    (
        Part::EightAllocIds,
        Line::Frames(4, Some(Grant::Poll(0)), None),
    ),
    (
        Part::EightAllocIds,
        Line::Heard(FAR, A_ACKNOWLEDGES, Reply::Acked(259), None),
    ),
    (
        Part::EightAllocIds,
        Line::Asked(1, Command::Alloc(A), Reply::Allocated(260)),
    ),
    (
        Part::EightAllocIds,
        Line::Frames(4, Some(Grant::Poll(0)), None),
    ),
    (
        Part::EightAllocIds,
        Line::Heard(FAR, A_ACKNOWLEDGES, Reply::Acked(260), None),
    ),
    (
        Part::EightAllocIds,
        Line::Asked(1, Command::Alloc(A), Reply::Allocated(261)),
    ),
    (
        Part::EightAllocIds,
        Line::Frames(4, Some(Grant::Poll(0)), None),
    ),
    (
        Part::EightAllocIds,
        Line::Heard(FAR, A_ACKNOWLEDGES, Reply::Acked(261), None),
    ),
    (
        Part::EightAllocIds,
        Line::Asked(1, Command::Alloc(A), Reply::Allocated(262)),
    ),
    (
        Part::EightAllocIds,
        Line::Frames(4, Some(Grant::Poll(0)), None),
    ),
    (
        Part::EightAllocIds,
        Line::Heard(FAR, A_ACKNOWLEDGES, Reply::Acked(262), None),
    ),
    (
        Part::EightAllocIds,
        Line::Asked(1, Command::Alloc(A), Reply::Allocated(263)),
    ),
    (
        Part::EightAllocIds,
        Line::Frames(4, Some(Grant::Poll(0)), None),
    ),
    (
        Part::EightAllocIds,
        Line::Heard(FAR, A_ACKNOWLEDGES, Reply::Acked(263), None),
    ),
    (
        Part::EightAllocIds,
        Line::Asked(1, Command::Alloc(A), Reply::Refused(Refusal::AllocFull)),
    ),
];

/// A port that has all that an image can have.
pub(super) const ALL_AT_ONCE: [(Part, Line); 14] = [
    // A operates, with one Alloc-ID held and one leaving. B is ranging, and its window is open. C is disabled. The
    // ONU-ID that D had is cooling. Six copies are owed.
    (
        Part::AllAtOnce,
        Line::Asked(1, Command::Alloc(A), Reply::Allocated(256)),
    ),
    (Part::AllAtOnce, Line::Frames(4, Some(Grant::Poll(0)), None)),
    (
        Part::AllAtOnce,
        Line::Heard(FAR, A_ACKNOWLEDGES, Reply::Acked(256), None),
    ),
    (
        Part::AllAtOnce,
        Line::Asked(1, Command::Alloc(A), Reply::Allocated(257)),
    ),
    (Part::AllAtOnce, Line::Frames(4, Some(Grant::Poll(0)), None)),
    (
        Part::AllAtOnce,
        Line::Heard(FAR, A_ACKNOWLEDGES, Reply::Acked(257), None),
    ),
    (
        Part::AllAtOnce,
        Line::Asked(
            1,
            Command::Dealloc {
                serial: A,
                alloc: 257,
            },
            Reply::Releasing(257),
        ),
    ),
    (
        Part::AllAtOnce,
        Line::Asked(1, Command::Search, Reply::Searching),
    ),
    (Part::AllAtOnce, Line::Frames(8, Some(Grant::Search), None)),
    (
        Part::AllAtOnce,
        Line::Heard(FAR, B_SEARCHED, Reply::Found(1), None),
    ),
    (
        Part::AllAtOnce,
        Line::Heard(FAR, D_SEARCHED, Reply::Found(2), None),
    ),
    (
        Part::AllAtOnce,
        Line::Frames(7, Some(Grant::Range(1)), None),
    ),
    (
        Part::AllAtOnce,
        Line::Asked(1, Command::Deactivate(D), Reply::Deactivated(2)),
    ),
    (
        Part::AllAtOnce,
        Line::Asked(1, Command::Disable(C), Reply::Disabled),
    ),
];
