//! The stories: what units that speak for others say, line by line, and what the port has to answer (docs/MACHINE.md).
//! A new one is a row of the table here.

use crate::port::{A, B, C, STRANGER};
use gp_alarms::AlarmKind;
use gp_machine::{Command, Refusal, Reply};
use gp_ploam::Serial;
use gp_ranging::Grant;

/// What somebody on the fibre says, with this octet 1.
#[derive(Clone, Copy)]
pub(crate) enum Said {
    /// Serial_Number_ONU with this serial number.
    Number(u8, Serial),
    /// Dying_Gasp.
    Gasp(u8),
    /// No_message.
    Nothing(u8),
    /// Acknowledge of the message with this identifier.
    Heard(u8, u8),
}

/// The replies of these stories, with ONU-ID, Alloc-ID and equalization delay where a reply has them.
#[derive(Clone, Copy)]
pub(crate) enum Told {
    Searching,
    Found(u8),
    Repeat(u8),
    Again(u8),
    Restarted(u8),
    DisabledSeen,
    Ranged(u8, u32),
    TooFar(u8),
    StillRanging(u8),
    Alive(u8),
    Gasp(u8),
    Acked(u16),
    Allocated(u16),
    Deactivated(u8),
    Disabled,
    Enabled,
}

/// What is done to the port, and what it has to answer.
#[derive(Clone, Copy)]
pub(crate) enum Line {
    /// So many frames, of which the last alone grants this.
    Frames(u32, Option<Grant>),
    /// So many frames, of which the last raises this alarm.
    Loses(u32, AlarmKind),
    /// A command, and its reply.
    Asked(Command, Told),
    /// What is said after the round-trip delay of the units, and the reply.
    Says(Said, Told),
    /// What is said after this round-trip delay in bit times, and the reply.
    SaysFrom(u32, Said, Told),
    /// What is said, the reply and the alarm.
    Alarms(Said, Told, AlarmKind),
    /// What is said is refused.
    Refuses(Said, Refusal),
    /// A command is refused.
    Denies(Command, Refusal),
    /// So many units are active, so many copies owed, and so many licences free.
    Stands(usize, usize, u32),
}

/// Where a story begins.
#[derive(Clone, Copy)]
pub(crate) enum Scene {
    /// A search window is open, and no unit is active. A search has so many windows.
    Search(u8),
    /// The ranging window of A, which has ONU-ID 0.
    Range,
    /// A operates with ONU-ID 0, and no window is open.
    Operation,
    /// The poll window of A.
    Poll,
}

impl Scene {
    /// Gives how many windows a search has.
    pub(crate) fn cycles(self) -> u8 {
        match self {
            Scene::Search(cycles) => cycles,
            _ => 1,
        }
    }

    /// Gives the lines that lead to the scene in a port that has just been opened: the first two open a search
    /// window, four the ranging window of A, six have A ranged, seven open its poll window.
    pub(crate) fn lines(self) -> &'static [Line] {
        match self {
            Scene::Search(_) => &BEGINNING[..2],
            Scene::Range => &BEGINNING[..4],
            Scene::Operation => &BEGINNING[..6],
            Scene::Poll => BEGINNING,
        }
    }
}

impl Told {
    /// Gives the reply.
    pub(crate) fn reply(self) -> Reply {
        match self {
            Told::Searching => Reply::Searching,
            Told::Found(onu) => Reply::Found(onu),
            Told::Repeat(onu) => Reply::Repeat(onu),
            Told::Again(onu) => Reply::Again(onu),
            Told::Restarted(onu) => Reply::Restarted(onu),
            Told::DisabledSeen => Reply::DisabledSeen,
            Told::Ranged(onu, eqd) => Reply::Ranged { onu, eqd },
            Told::TooFar(onu) => Reply::TooFar(onu),
            Told::StillRanging(onu) => Reply::StillRanging(onu),
            Told::Alive(onu) => Reply::Alive(onu),
            Told::Gasp(onu) => Reply::Gasp(onu),
            Told::Acked(alloc) => Reply::Acked(alloc),
            Told::Allocated(alloc) => Reply::Allocated(alloc),
            Told::Deactivated(onu) => Reply::Deactivated(onu),
            Told::Disabled => Reply::Disabled,
            Told::Enabled => Reply::Enabled,
        }
    }
}

/// Has A found, ranged and polled.
const BEGINNING: &[Line] = &[
    Line::Asked(Command::Search, Told::Searching),
    Line::Frames(5, Some(Grant::Search)),
    Line::Says(Said::Number(255, A), Told::Found(0)),
    Line::Frames(4, Some(Grant::Range(0))),
    Line::Says(Said::Number(0, A), Told::Ranged(0, 211_040)),
    Line::Frames(4, None),
    Line::Frames(1, Some(Grant::Poll(0))),
];

/// A port of its own, what is done to it, and what it answers.
#[derive(Clone, Copy)]
pub(crate) struct Story {
    pub(crate) name: &'static str,
    pub(crate) scene: Scene,
    pub(crate) lines: &'static [Line],
}

pub(crate) const STORIES: &[Story] = &[
    // Two units answer a search with one serial number: it gets one row, one licence and one ONU-ID, and is told of
    // it once.
    Story {
        name: "two units with one serial number in a search window",
        scene: Scene::Search(1),
        lines: &[
            Line::Says(Said::Number(255, A), Told::Found(0)),
            Line::Stands(1, 3, 1),
            Line::Says(Said::Number(255, A), Told::Repeat(0)),
            Line::SaysFrom(0, Said::Number(255, A), Told::Repeat(0)),
            Line::Stands(1, 3, 1),
            Line::Frames(4, Some(Grant::Range(0))),
        ],
    },
    // The second answers in the next search window: the ONU-ID is told again.
    Story {
        name: "two units with one serial number in two search windows",
        scene: Scene::Search(2),
        lines: &[
            Line::Says(Said::Number(255, A), Told::Found(0)),
            Line::Frames(4, Some(Grant::Search)),
            Line::Says(Said::Number(255, A), Told::Again(0)),
            Line::Says(Said::Number(255, A), Told::Repeat(0)),
            Line::Stands(1, 3, 1),
            Line::Frames(4, Some(Grant::Range(0))),
        ],
    },
    // A unit that is not admitted gets nothing, and no command is of it.
    Story {
        name: "a unit that is not admitted",
        scene: Scene::Search(1),
        lines: &[
            Line::Refuses(Said::Number(255, STRANGER), Refusal::NotAdmitted),
            Line::Refuses(Said::Number(0, STRANGER), Refusal::WrongWindow),
            Line::Denies(Command::Alloc(STRANGER), Refusal::NotAdmitted),
            Line::Denies(Command::Deactivate(STRANGER), Refusal::NotAdmitted),
            Line::Denies(Command::Disable(STRANGER), Refusal::NotAdmitted),
            Line::Denies(Command::Enable(STRANGER), Refusal::NotAdmitted),
            Line::Denies(Command::Popup(STRANGER), Refusal::NotAdmitted),
            Line::Denies(Command::Show(STRANGER), Refusal::NotAdmitted),
            Line::Stands(0, 0, 2),
            Line::Frames(4, None),
        ],
    },
    // A disabled unit raises an alarm each time, and gets nothing until it is enabled. The third unit finds no licence.
    Story {
        name: "a disabled unit, and more units than licences",
        scene: Scene::Search(1),
        lines: &[
            Line::Asked(Command::Disable(C), Told::Disabled),
            Line::Alarms(Said::Number(255, C), Told::DisabledSeen, AlarmKind::Df),
            Line::Alarms(Said::Number(255, C), Told::DisabledSeen, AlarmKind::Df),
            Line::Denies(Command::Show(C), Refusal::NotActive),
            Line::Stands(0, 3, 2),
            Line::Asked(Command::Enable(C), Told::Enabled),
            Line::Says(Said::Number(255, C), Told::Found(0)),
            Line::Says(Said::Number(255, B), Told::Found(1)),
            Line::Refuses(Said::Number(255, A), Refusal::NoLicence),
            Line::Stands(2, 12, 0),
        ],
    },
    // Others speak in a ranging window: with another serial number, or another ONU-ID. The unit is ranged all the
    // same, once.
    Story {
        name: "others in a ranging window",
        scene: Scene::Range,
        lines: &[
            Line::Refuses(Said::Number(0, B), Refusal::WrongWindow),
            Line::Refuses(Said::Number(0, STRANGER), Refusal::WrongWindow),
            Line::Refuses(Said::Number(1, A), Refusal::WrongWindow),
            Line::Refuses(Said::Number(255, A), Refusal::WrongWindow),
            Line::Refuses(Said::Number(255, B), Refusal::WrongWindow),
            Line::Refuses(Said::Gasp(1), Refusal::WrongWindow),
            Line::Says(Said::Nothing(0), Told::StillRanging(0)),
            Line::Stands(1, 0, 1),
            Line::Says(Said::Number(0, A), Told::Ranged(0, 211_040)),
            Line::Refuses(Said::Number(0, A), Refusal::Stray),
            Line::Stands(1, 3, 1),
        ],
    },
    // One with the serial number that is asked, but farther away than may be, is not ranged; the unit behind it is.
    Story {
        name: "a farther unit with the serial number that is asked",
        scene: Scene::Range,
        lines: &[
            Line::SaysFrom(311_041, Said::Number(0, A), Told::TooFar(0)),
            Line::SaysFrom(u32::MAX, Said::Number(0, A), Told::TooFar(0)),
            Line::Says(Said::Number(0, A), Told::Ranged(0, 211_040)),
        ],
    },
    // A nearer one comes first, and is ranged in the unit's place: a port can't tell them apart.
    Story {
        name: "a nearer unit with the serial number that is asked",
        scene: Scene::Range,
        lines: &[
            Line::SaysFrom(0, Said::Number(0, A), Told::Ranged(0, 311_040)),
            Line::Refuses(Said::Number(0, A), Refusal::Stray),
            Line::Stands(1, 3, 1),
        ],
    },
    // Others speak in both ranging windows, and the unit does not: it is removed.
    Story {
        name: "others alone in both ranging windows",
        scene: Scene::Range,
        lines: &[
            Line::Refuses(Said::Number(0, B), Refusal::WrongWindow),
            Line::Frames(4, Some(Grant::Range(0))),
            Line::Refuses(Said::Number(0, STRANGER), Refusal::WrongWindow),
            Line::Loses(3, AlarmKind::Suf),
            Line::Stands(0, 3, 2),
            Line::Refuses(Said::Number(0, A), Refusal::Stray),
            Line::Denies(Command::Show(A), Refusal::NotActive),
        ],
    },
    // Others speak in a poll window. One with the ONU-ID that is asked is taken for the unit, whatever its serial
    // number.
    Story {
        name: "others in a poll window",
        scene: Scene::Poll,
        lines: &[
            Line::Refuses(Said::Nothing(1), Refusal::WrongWindow),
            Line::Refuses(Said::Nothing(254), Refusal::WrongWindow),
            Line::Refuses(Said::Number(1, A), Refusal::WrongWindow),
            Line::Refuses(Said::Number(255, A), Refusal::WrongWindow),
            Line::Refuses(Said::Number(255, B), Refusal::WrongWindow),
            Line::Refuses(Said::Heard(1, 10), Refusal::WrongWindow),
            Line::Says(Said::Number(0, B), Told::Alive(0)),
            Line::Refuses(Said::Nothing(0), Refusal::Stray),
            Line::Stands(1, 0, 1),
            Line::Denies(Command::Show(B), Refusal::NotActive),
        ],
    },
    // They speak in three poll windows, and the unit in none: it is removed.
    Story {
        name: "others alone in three poll windows",
        scene: Scene::Poll,
        lines: &[
            Line::Refuses(Said::Nothing(1), Refusal::WrongWindow),
            Line::Frames(4, Some(Grant::Poll(0))),
            Line::Refuses(Said::Gasp(255), Refusal::WrongWindow),
            Line::Frames(4, Some(Grant::Poll(0))),
            Line::Refuses(Said::Number(255, A), Refusal::WrongWindow),
            Line::Loses(3, AlarmKind::Loam),
            Line::Stands(0, 3, 2),
        ],
    },
    // A gasp counts where the ONU-ID is the one that is asked, and removes nobody.
    Story {
        name: "gasps in a poll window",
        scene: Scene::Poll,
        lines: &[
            Line::Refuses(Said::Gasp(1), Refusal::WrongWindow),
            Line::Alarms(Said::Gasp(0), Told::Gasp(0), AlarmKind::Dg),
            Line::Refuses(Said::Gasp(0), Refusal::Stray),
            Line::Stands(1, 0, 1),
        ],
    },
    // The serial number of an operating unit comes in a search: the unit is removed, and its number kept from others
    // for a while.
    Story {
        name: "the serial number of an operating unit in a search window",
        scene: Scene::Operation,
        lines: &[
            Line::Asked(Command::Search, Told::Searching),
            Line::Frames(5, Some(Grant::Search)),
            Line::Refuses(Said::Number(0, A), Refusal::WrongWindow),
            Line::Refuses(Said::Nothing(0), Refusal::WrongWindow),
            Line::Refuses(Said::Nothing(255), Refusal::WrongWindow),
            Line::Stands(1, 0, 1),
            Line::Says(Said::Number(255, A), Told::Restarted(0)),
            Line::Stands(0, 3, 2),
            Line::Says(Said::Number(255, B), Told::Found(1)),
            Line::Stands(1, 6, 1),
        ],
    },
    // A unit that was removed goes on with its ONU-ID, in no window, in a search, and in the windows of the next unit.
    Story {
        name: "a unit that was removed",
        scene: Scene::Operation,
        lines: &[
            Line::Asked(Command::Deactivate(A), Told::Deactivated(0)),
            Line::Stands(0, 3, 2),
            Line::Refuses(Said::Nothing(0), Refusal::Stray),
            Line::Asked(Command::Search, Told::Searching),
            Line::Frames(8, Some(Grant::Search)),
            Line::Refuses(Said::Nothing(0), Refusal::WrongWindow),
            Line::Refuses(Said::Number(0, A), Refusal::WrongWindow),
            Line::Refuses(Said::Gasp(0), Refusal::WrongWindow),
            Line::Refuses(Said::Heard(0, 10), Refusal::WrongWindow),
            Line::Stands(0, 0, 2),
            Line::Says(Said::Number(255, B), Told::Found(1)),
            Line::Frames(4, Some(Grant::Range(1))),
            Line::Refuses(Said::Number(0, A), Refusal::WrongWindow),
            Line::Refuses(Said::Number(1, A), Refusal::WrongWindow),
            Line::Refuses(Said::Gasp(0), Refusal::WrongWindow),
            Line::Stands(1, 0, 1),
        ],
    },
    // A unit that is disabled while it is asked: its window shuts, and what it still says is heard nowhere.
    Story {
        name: "a unit that is disabled in its poll window",
        scene: Scene::Poll,
        lines: &[
            Line::Asked(Command::Disable(A), Told::Disabled),
            Line::Stands(0, 3, 2),
            Line::Refuses(Said::Nothing(0), Refusal::Stray),
            Line::Refuses(Said::Number(0, A), Refusal::Stray),
            Line::Asked(Command::Search, Told::Searching),
            Line::Frames(8, Some(Grant::Search)),
            Line::Alarms(Said::Number(255, A), Told::DisabledSeen, AlarmKind::Df),
            Line::Stands(0, 0, 2),
        ],
    },
    // Acknowledgements of another unit, and of other messages, free nothing: with the third window without the right
    // one the unit is removed.
    Story {
        name: "acknowledgements of another message or unit",
        scene: Scene::Operation,
        lines: &[
            Line::Asked(Command::Alloc(A), Told::Allocated(256)),
            Line::Refuses(Said::Heard(0, 10), Refusal::Stray),
            Line::Frames(4, Some(Grant::Poll(0))),
            Line::Refuses(Said::Heard(1, 10), Refusal::WrongWindow),
            Line::Says(Said::Heard(0, 4), Told::Alive(0)),
            Line::Frames(1, Some(Grant::Poll(0))),
            Line::Says(Said::Heard(0, 0), Told::Alive(0)),
            Line::Frames(1, Some(Grant::Poll(0))),
            Line::Alarms(Said::Heard(0, 255), Told::Alive(0), AlarmKind::Loa),
            Line::Stands(0, 3, 2),
        ],
    },
    // The right one, once, and then again with nothing pending.
    Story {
        name: "an acknowledgement that comes twice",
        scene: Scene::Operation,
        lines: &[
            Line::Asked(Command::Alloc(A), Told::Allocated(256)),
            Line::Frames(4, Some(Grant::Poll(0))),
            Line::Says(Said::Heard(0, 10), Told::Acked(256)),
            Line::Frames(1, Some(Grant::Poll(0))),
            Line::Says(Said::Heard(0, 10), Told::Alive(0)),
            Line::Stands(1, 0, 1),
        ],
    },
];
