//! The worked runs: what each is played with, what is done, and what the entries have to have.
use gp_alarms::{Alarm, AlarmKind};
use gp_fibre::{UnitPlan, WorldFault, WorldStep};
use gp_machine::{Command, Refusal, Reply};
use gp_ploam::Serial;
use gp_ranging::Grant;

pub(super) const A: Serial = Serial(*b"ABCD\0\0\0\x01");

const B: Serial = Serial(*b"ABCD\0\0\0\x02");

/// A's serial number, without an ONU-ID.
const A_SEARCHED: [u8; 13] = [0xff, 1, 0x41, 0x42, 0x43, 0x44, 0, 0, 0, 1, 0, 0, 0x2c];

/// A run by its name.
#[derive(Clone, Copy, Debug, PartialEq, Eq)]
pub(super) enum Run {
    /// The copies of the assignment are lost, so the unit is found again.
    LostCopies,
    /// The first burst is lost, so the unit is found in the second search window.
    LostBursts,
    /// A burst whose round trip has more than a frame comes a frame later.
    DistantUnit,
    /// A burst whose round trip has a bit time less than a frame comes in the frame of its grant, and one with a whole
    /// frame in the next.
    UnderAFrame,
    WholeFrame,
    /// Both answer each grant; the second is heard where the first was, or when its window is closed.
    OneSerialNumberTwice,
    /// A unit that is not admitted is refused beside one that is found.
    NotAdmitted,
    /// A unit in the dark answers no search, and the next one once it is lit.
    DarkAndLight,
    /// The light goes and comes back: a directed POPUP brings the unit back.
    UnitPopup,
    /// Without it the port loses the unit.
    LostUnit,
    /// A unit that heard the first search, and no later one, answers up to the frame 80,000 after.
    TimerRuns,
    TimerEnds,
    /// The steps by hand, one after the other: what was sent may reach a unit and the port more than once.
    EachStep,
    /// The burst of a unit four frames away comes when the search window is closed.
    BeyondTheWindow,
    /// Two bursts that come in one frame, the first of them answered four frames earlier by the later unit, arrive in
    /// the order of their numbers.
    BurstsOfOneFrame,
    /// What was sent is forgotten while a burst is in flight, which comes as it would have come.
    ForgetsInFlight,
    /// The first burst is lost and then forgotten, and the next has the next number, so that it is not lost.
    NumbersGoOn,
    /// Searches, a POPUP and what is forgotten, in parts of several lengths.
    InParts,
}

/// What a run is played with: one unit, which is the first, or both.
#[derive(Clone, Copy)]
pub(super) struct Plan {
    pub(super) run: Run,
    pub(super) cycles: u8,
    pub(super) copies: &'static [u64],
    pub(super) bursts: &'static [u64],
    pub(super) alone: bool,
    pub(super) units: [UnitPlan; 2],
}

pub(super) const NEAR: UnitPlan = UnitPlan {
    serial: A,
    delay: 100_000,
    random: 0,
};

const FAR: UnitPlan = UnitPlan {
    serial: A,
    delay: 200_000,
    random: 0,
};

const UNDER_A_FRAME: UnitPlan = UnitPlan {
    serial: A,
    delay: 155_519,
    random: 0,
};

const WHOLE_FRAME: UnitPlan = UnitPlan {
    serial: A,
    delay: 155_520,
    random: 0,
};

const FARTHEST: UnitPlan = UnitPlan {
    serial: A,
    delay: 622_080,
    random: 0,
};

const STRANGER: UnitPlan = UnitPlan {
    serial: B,
    delay: 100_000,
    random: 0,
};

const NO_LOSS: Plan = Plan {
    run: Run::UnitPopup,
    cycles: 1,
    copies: &[],
    bursts: &[],
    alone: true,
    units: [NEAR, NEAR],
};

/// A number that stands twice in a plan is lost once, and one that never comes changes nothing.
pub(super) const LOSSES: [Plan; 5] = [
    Plan {
        run: Run::LostCopies,
        cycles: 2,
        copies: &[3, 4, 5],
        ..NO_LOSS
    },
    Plan {
        run: Run::LostCopies,
        cycles: 2,
        copies: &[3, 4, 5, 4, 1_000_000],
        bursts: &[99],
        ..NO_LOSS
    },
    Plan {
        run: Run::LostBursts,
        cycles: 2,
        bursts: &[0],
        ..NO_LOSS
    },
    Plan {
        run: Run::LostBursts,
        cycles: 2,
        copies: &[1_000_000],
        bursts: &[0, 99, 0],
        ..NO_LOSS
    },
    Plan {
        run: Run::NumbersGoOn,
        cycles: 2,
        bursts: &[0],
        ..NO_LOSS
    },
];

pub(super) const POPUP_AND_TIMERS: [Plan; 4] = [
    Plan {
        run: Run::UnitPopup,
        ..NO_LOSS
    },
    Plan {
        run: Run::LostUnit,
        ..NO_LOSS
    },
    Plan {
        run: Run::TimerRuns,
        copies: &[3, 4, 5],
        bursts: &[0],
        ..NO_LOSS
    },
    Plan {
        run: Run::TimerEnds,
        copies: &[3, 4, 5],
        bursts: &[0],
        ..NO_LOSS
    },
];

pub(super) const UNITS_AND_STEPS: [Plan; 10] = [
    Plan {
        run: Run::DistantUnit,
        units: [FAR, FAR],
        ..NO_LOSS
    },
    Plan {
        run: Run::UnderAFrame,
        units: [UNDER_A_FRAME, UNDER_A_FRAME],
        ..NO_LOSS
    },
    Plan {
        run: Run::WholeFrame,
        units: [WHOLE_FRAME, WHOLE_FRAME],
        ..NO_LOSS
    },
    Plan {
        run: Run::OneSerialNumberTwice,
        alone: false,
        units: [NEAR, FAR],
        ..NO_LOSS
    },
    Plan {
        run: Run::NotAdmitted,
        alone: false,
        units: [STRANGER, NEAR],
        ..NO_LOSS
    },
    Plan {
        run: Run::DarkAndLight,
        ..NO_LOSS
    },
    Plan {
        run: Run::EachStep,
        ..NO_LOSS
    },
    Plan {
        run: Run::BeyondTheWindow,
        units: [FARTHEST, FARTHEST],
        ..NO_LOSS
    },
    Plan {
        run: Run::BurstsOfOneFrame,
        cycles: 2,
        bursts: &[0],
        alone: false,
        units: [STRANGER, FARTHEST],
        ..NO_LOSS
    },
    Plan {
        run: Run::ForgetsInFlight,
        units: [FAR, FAR],
        ..NO_LOSS
    },
];

/// Both units answer searches, and one of them is admitted.
pub(super) const IN_PARTS: Plan = Plan {
    run: Run::InParts,
    cycles: 3,
    alone: false,
    units: [NEAR, STRANGER],
    ..NO_LOSS
};

/// What is done with a world: a step, or so many frames, or that it forgets.
#[derive(Clone, Copy)]
pub(super) enum Act {
    Step(WorldStep),
    Run(u32),
    Forget,
}

const SEARCH: Act = Act::Step(WorldStep::Command(Command::Search));

const POPUP: Act = Act::Step(WorldStep::Command(Command::Popup(A)));

const DARK: Act = Act::Step(WorldStep::Dark(0));

const LIGHT: Act = Act::Step(WorldStep::Light(0));

const FRAME: Act = Act::Step(WorldStep::Frame);

const DELIVER: Act = Act::Step(WorldStep::Deliver { copy: 0, unit: 0 });

const GIVE: Act = Act::Step(WorldStep::Give { grant: 0, unit: 0 });

const ARRIVE: Act = Act::Step(WorldStep::Arrive { burst: 0 });

const BYTES: Act = Act::Step(WorldStep::Bytes {
    at: 100_000,
    bytes: A_SEARCHED,
});

const A_FRAME_OF_A_RUN: Act = Act::Run(1);

/// What is done in each run, in this order.
pub(super) const ACTS: [(Run, Act); 63] = [
    (Run::LostCopies, SEARCH),
    (Run::LostCopies, Act::Run(13)),
    (Run::LostBursts, SEARCH),
    (Run::LostBursts, Act::Run(13)),
    (Run::DistantUnit, SEARCH),
    (Run::DistantUnit, Act::Run(11)),
    (Run::UnderAFrame, SEARCH),
    (Run::UnderAFrame, Act::Run(5)),
    (Run::WholeFrame, SEARCH),
    (Run::WholeFrame, Act::Run(6)),
    (Run::OneSerialNumberTwice, SEARCH),
    (Run::OneSerialNumberTwice, Act::Run(14)),
    (Run::NotAdmitted, SEARCH),
    (Run::NotAdmitted, Act::Run(5)),
    (Run::DarkAndLight, DARK),
    (Run::DarkAndLight, SEARCH),
    (Run::DarkAndLight, Act::Run(9)),
    (Run::DarkAndLight, LIGHT),
    (Run::DarkAndLight, SEARCH),
    (Run::DarkAndLight, Act::Run(5)),
    (Run::UnitPopup, SEARCH),
    (Run::UnitPopup, Act::Run(14)),
    (Run::UnitPopup, DARK),
    (Run::UnitPopup, LIGHT),
    (Run::UnitPopup, POPUP),
    (Run::UnitPopup, Act::Run(4)),
    (Run::LostUnit, SEARCH),
    (Run::LostUnit, Act::Run(14)),
    (Run::LostUnit, DARK),
    (Run::LostUnit, LIGHT),
    (Run::LostUnit, Act::Run(16)),
    (Run::TimerRuns, SEARCH),
    (Run::TimerRuns, Act::Run(79_996)),
    (Run::TimerRuns, SEARCH),
    (Run::TimerRuns, Act::Run(5)),
    (Run::TimerEnds, SEARCH),
    (Run::TimerEnds, Act::Run(79_997)),
    (Run::TimerEnds, SEARCH),
    (Run::TimerEnds, Act::Run(5)),
    (Run::EachStep, SEARCH),
    (Run::EachStep, FRAME),
    (Run::EachStep, FRAME),
    (Run::EachStep, DELIVER),
    (Run::EachStep, DELIVER),
    (Run::EachStep, FRAME),
    (Run::EachStep, FRAME),
    (Run::EachStep, FRAME),
    (Run::EachStep, GIVE),
    (Run::EachStep, ARRIVE),
    (Run::EachStep, ARRIVE),
    (Run::EachStep, BYTES),
    (Run::BeyondTheWindow, SEARCH),
    (Run::BeyondTheWindow, Act::Run(9)),
    (Run::BurstsOfOneFrame, SEARCH),
    (Run::BurstsOfOneFrame, Act::Run(9)),
    (Run::ForgetsInFlight, SEARCH),
    (Run::ForgetsInFlight, Act::Run(5)),
    (Run::ForgetsInFlight, Act::Forget),
    (Run::ForgetsInFlight, Act::Run(6)),
    (Run::NumbersGoOn, SEARCH),
    (Run::NumbersGoOn, Act::Run(7)),
    (Run::NumbersGoOn, Act::Forget),
    (Run::NumbersGoOn, Act::Run(6)),
];

/// What is done in parts: none, one and many frames at a time, and other steps between.
pub(super) const PARTS: [(Run, Act); 16] = [
    (Run::InParts, SEARCH),
    (Run::InParts, A_FRAME_OF_A_RUN),
    (Run::InParts, Act::Run(0)),
    (Run::InParts, Act::Run(12)),
    (Run::InParts, FRAME),
    (Run::InParts, SEARCH),
    (Run::InParts, Act::Run(7)),
    (Run::InParts, Act::Forget),
    (Run::InParts, Act::Run(33)),
    (Run::InParts, DARK),
    (Run::InParts, LIGHT),
    (Run::InParts, POPUP),
    (Run::InParts, Act::Run(2)),
    (Run::InParts, SEARCH),
    (Run::InParts, A_FRAME_OF_A_RUN),
    (Run::InParts, Act::Run(64)),
];

/// What is done in a new world, the last of it a step that asks for what was forgotten, and its fault.
pub(super) const FORGOTTEN: [([Act; 4], WorldFault); 3] = [
    (
        [SEARCH, Act::Run(5), Act::Forget, DELIVER],
        WorldFault::NoCopy,
    ),
    (
        [SEARCH, Act::Run(5), Act::Forget, GIVE],
        WorldFault::NoGrant,
    ),
    (
        [SEARCH, Act::Run(5), Act::Forget, ARRIVE],
        WorldFault::NoBurst,
    ),
];

/// What is done in a new world, and the last reply. The first step of a world takes memory, be it a frame, a command
/// or a burst; so do the first grant that is given, and a frame of a run.
pub(super) const SHORT_OF_MEMORY: [(&'static [Act], Option<Reply>); 5] = [
    (&[FRAME], Some(Reply::Ticked)),
    (&[SEARCH], Some(Reply::Searching)),
    (&[BYTES], Some(Reply::Refused(Refusal::Stray))),
    (
        &[
            SEARCH, FRAME, FRAME, DELIVER, FRAME, FRAME, FRAME, GIVE, ARRIVE,
        ],
        Some(Reply::Found(0)),
    ),
    (
        &[
            SEARCH,
            A_FRAME_OF_A_RUN,
            A_FRAME_OF_A_RUN,
            A_FRAME_OF_A_RUN,
            A_FRAME_OF_A_RUN,
            A_FRAME_OF_A_RUN,
            ARRIVE,
        ],
        Some(Reply::Repeat(0)),
    ),
];

/// What an entry has, or that there is none, and this is the number of entries.
#[derive(Clone, Copy)]
pub(super) enum Told {
    Replied(Reply),
    Granted(Grant),
    Raised(Alarm),
    Ended,
}

const SEARCHES: Told = Told::Granted(Grant::Search);

const RANGES: Told = Told::Granted(Grant::Range(0));

const POLLS: Told = Told::Granted(Grant::Poll(0));

const FOUND: Told = Told::Replied(Reply::Found(0));

const ALIVE: Told = Told::Replied(Reply::Alive(0));

const REPEATS: Told = Told::Replied(Reply::Repeat(0));

const STRAY: Told = Told::Replied(Reply::Refused(Refusal::Stray));

const NOT_ADMITTED: Told = Told::Replied(Reply::Refused(Refusal::NotAdmitted));

const RANGED: Told = Told::Replied(Reply::Ranged {
    onu: 0,
    eqd: 211_040,
});

const FAR_RANGED: Told = Told::Replied(Reply::Ranged {
    onu: 0,
    eqd: 111_040,
});

/// What the entries of each run have, by their places.
pub(super) const TOLD: [(Run, usize, Told); 65] = [
    (Run::LostCopies, 6, FOUND),
    (Run::LostCopies, 10, SEARCHES),
    (Run::LostCopies, 11, Told::Replied(Reply::Again(0))),
    (Run::LostCopies, 15, RANGES),
    (Run::LostCopies, 16, RANGED),
    (Run::LostCopies, 17, Told::Ended),
    (Run::LostBursts, 9, SEARCHES),
    (Run::LostBursts, 10, FOUND),
    (Run::LostBursts, 14, RANGES),
    (Run::LostBursts, 15, RANGED),
    (Run::DistantUnit, 5, SEARCHES),
    (Run::DistantUnit, 7, FOUND),
    (Run::DistantUnit, 11, RANGES),
    (Run::DistantUnit, 13, FAR_RANGED),
    (Run::DistantUnit, 14, Told::Ended),
    (Run::UnderAFrame, 5, SEARCHES),
    (Run::UnderAFrame, 6, FOUND),
    (Run::UnderAFrame, 7, Told::Ended),
    (Run::WholeFrame, 5, SEARCHES),
    (Run::WholeFrame, 6, Told::Replied(Reply::Ticked)),
    (Run::WholeFrame, 7, FOUND),
    (Run::WholeFrame, 8, Told::Ended),
    (Run::OneSerialNumberTwice, 6, FOUND),
    (Run::OneSerialNumberTwice, 8, REPEATS),
    (Run::OneSerialNumberTwice, 11, RANGES),
    (Run::OneSerialNumberTwice, 12, RANGED),
    (Run::OneSerialNumberTwice, 14, STRAY),
    (Run::OneSerialNumberTwice, 18, POLLS),
    (Run::OneSerialNumberTwice, 19, ALIVE),
    (Run::NotAdmitted, 6, NOT_ADMITTED),
    (Run::NotAdmitted, 7, FOUND),
    (Run::DarkAndLight, 5, SEARCHES),
    (Run::DarkAndLight, 10, Told::Replied(Reply::Searching)),
    (Run::DarkAndLight, 15, SEARCHES),
    (Run::DarkAndLight, 16, FOUND),
    (Run::DarkAndLight, 17, Told::Ended),
    (Run::UnitPopup, 17, ALIVE),
    (Run::UnitPopup, 18, Told::Replied(Reply::PoppedUp(0))),
    (Run::UnitPopup, 22, POLLS),
    (Run::UnitPopup, 23, ALIVE),
    (
        Run::LostUnit,
        33,
        Told::Raised(Alarm {
            kind: AlarmKind::Los,
            serial: A,
        }),
    ),
    (Run::LostUnit, 34, Told::Ended),
    (Run::TimerRuns, 80_003, FOUND),
    (Run::TimerRuns, 80_004, Told::Ended),
    (Run::TimerEnds, 80_003, Told::Replied(Reply::Ticked)),
    (Run::TimerEnds, 80_004, Told::Ended),
    (Run::EachStep, 5, SEARCHES),
    (Run::EachStep, 6, FOUND),
    (Run::EachStep, 7, REPEATS),
    (Run::EachStep, 8, REPEATS),
    (Run::EachStep, 9, Told::Ended),
    (Run::BeyondTheWindow, 5, SEARCHES),
    (Run::BeyondTheWindow, 10, STRAY),
    (Run::BeyondTheWindow, 11, Told::Ended),
    (Run::BurstsOfOneFrame, 5, SEARCHES),
    (Run::BurstsOfOneFrame, 9, SEARCHES),
    (Run::BurstsOfOneFrame, 10, FOUND),
    (Run::BurstsOfOneFrame, 11, NOT_ADMITTED),
    (Run::BurstsOfOneFrame, 12, Told::Ended),
    (Run::ForgetsInFlight, 7, FOUND),
    (Run::ForgetsInFlight, 13, FAR_RANGED),
    (Run::ForgetsInFlight, 14, Told::Ended),
    (Run::NumbersGoOn, 9, SEARCHES),
    (Run::NumbersGoOn, 10, FOUND),
    (Run::NumbersGoOn, 15, RANGED),
];
