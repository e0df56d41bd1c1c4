//! A row for each reply and each refusal.
use super::{A, is_told};
use crate::fields::{Field, Plain};
use gp_machine::{Allocs, Answer, Command, Event, Phase, Refusal, Reply, Row};
use std::alloc::{AllocError, Global};

/// A reply, the line of a frame that has it, and the fields of that behind the first two.
type ReplyRow = (Reply, &'static str, &'static [Field]);

const FRAME: Field = Field::Plain(Plain::Text("event", "frame"));

const REPLIES: [ReplyRow; 21] = [
    (
        Reply::Ticked,
        "1 7 frame = ok",
        &[FRAME, Field::Plain(Plain::Text("reply", "ok"))],
    ),
    (
        Reply::Searching,
        "1 7 frame = searching",
        &[FRAME, Field::Plain(Plain::Text("reply", "searching"))],
    ),
    (
        Reply::Found(0),
        "1 7 frame = found 0",
        &[
            FRAME,
            Field::Plain(Plain::Text("reply", "found")),
            Field::Plain(Plain::Number("onu", 0)),
        ],
    ),
    (
        Reply::Again(1),
        "1 7 frame = again 1",
        &[
            FRAME,
            Field::Plain(Plain::Text("reply", "again")),
            Field::Plain(Plain::Number("onu", 1)),
        ],
    ),
    (
        Reply::Repeat(2),
        "1 7 frame = repeat 2",
        &[
            FRAME,
            Field::Plain(Plain::Text("reply", "repeat")),
            Field::Plain(Plain::Number("onu", 2)),
        ],
    ),
    (
        Reply::Ranged {
            onu: 253,
            eqd: 211_040,
        },
        "1 7 frame = ranged 253 211040",
        &[
            FRAME,
            Field::Plain(Plain::Text("reply", "ranged")),
            Field::Plain(Plain::Number("onu", 253)),
            Field::Plain(Plain::Number("eqd", 211_040)),
        ],
    ),
    (
        Reply::TooFar(3),
        "1 7 frame = too-far 3",
        &[
            FRAME,
            Field::Plain(Plain::Text("reply", "too-far")),
            Field::Plain(Plain::Number("onu", 3)),
        ],
    ),
    (
        Reply::StillRanging(4),
        "1 7 frame = still-ranging 4",
        &[
            FRAME,
            Field::Plain(Plain::Text("reply", "still-ranging")),
            Field::Plain(Plain::Number("onu", 4)),
        ],
    ),
    (
        Reply::Restarted(253),
        "1 7 frame = restarted 253",
        &[
            FRAME,
            Field::Plain(Plain::Text("reply", "restarted")),
            Field::Plain(Plain::Number("onu", 253)),
        ],
    ),
    (
        Reply::DisabledSeen,
        "1 7 frame = disabled-seen",
        &[FRAME, Field::Plain(Plain::Text("reply", "disabled-seen"))],
    ),
    (
        Reply::Alive(5),
        "1 7 frame = alive 5",
        &[
            FRAME,
            Field::Plain(Plain::Text("reply", "alive")),
            Field::Plain(Plain::Number("onu", 5)),
        ],
    ),
    (
        Reply::Acked(256),
        "1 7 frame = acked 256",
        &[
            FRAME,
            Field::Plain(Plain::Text("reply", "acked")),
            Field::Plain(Plain::Number("reply_alloc", 256)),
        ],
    ),
    (
        Reply::Gasp(6),
        "1 7 frame = gasp 6",
        &[
            FRAME,
            Field::Plain(Plain::Text("reply", "gasp")),
            Field::Plain(Plain::Number("onu", 6)),
        ],
    ),
    (
        Reply::Allocated(4095),
        "1 7 frame = allocated 4095",
        &[
            FRAME,
            Field::Plain(Plain::Text("reply", "allocated")),
            Field::Plain(Plain::Number("reply_alloc", 4_095)),
        ],
    ),
    (
        Reply::Releasing(257),
        "1 7 frame = releasing 257",
        &[
            FRAME,
            Field::Plain(Plain::Text("reply", "releasing")),
            Field::Plain(Plain::Number("reply_alloc", 257)),
        ],
    ),
    (
        Reply::Deactivated(7),
        "1 7 frame = deactivated 7",
        &[
            FRAME,
            Field::Plain(Plain::Text("reply", "deactivated")),
            Field::Plain(Plain::Number("onu", 7)),
        ],
    ),
    (
        Reply::Disabled,
        "1 7 frame = disabled",
        &[FRAME, Field::Plain(Plain::Text("reply", "disabled"))],
    ),
    (
        Reply::Enabled,
        "1 7 frame = enabled",
        &[FRAME, Field::Plain(Plain::Text("reply", "enabled"))],
    ),
    (
        Reply::EnabledAll,
        "1 7 frame = enabled-all",
        &[FRAME, Field::Plain(Plain::Text("reply", "enabled-all"))],
    ),
    (
        Reply::PoppedUp(8),
        "1 7 frame = popped-up 8",
        &[
            FRAME,
            Field::Plain(Plain::Text("reply", "popped-up")),
            Field::Plain(Plain::Number("onu", 8)),
        ],
    ),
    (
        Reply::PoppedUpAll(9),
        "1 7 frame = popped-up-all 9",
        &[
            FRAME,
            Field::Plain(Plain::Text("reply", "popped-up-all")),
            Field::Plain(Plain::Number("count", 9)),
        ],
    ),
];

/// A refusal, the line of a frame that has it, its number and its name.
type RefusalRow = (Refusal, &'static str, &'static [Field]);

const REFUSED: Field = Field::Plain(Plain::Text("reply", "refused"));

const REFUSALS: [RefusalRow; 14] = [
    (
        Refusal::Stray,
        "1 7 frame = refused 1 stray",
        &[
            FRAME,
            REFUSED,
            Field::Plain(Plain::Number("refusal", 1)),
            Field::Plain(Plain::Text("reason", "stray")),
        ],
    ),
    (
        Refusal::Garbled,
        "1 7 frame = refused 2 garbled",
        &[
            FRAME,
            REFUSED,
            Field::Plain(Plain::Number("refusal", 2)),
            Field::Plain(Plain::Text("reason", "garbled")),
        ],
    ),
    (
        Refusal::WrongWindow,
        "1 7 frame = refused 3 wrong-window",
        &[
            FRAME,
            REFUSED,
            Field::Plain(Plain::Number("refusal", 3)),
            Field::Plain(Plain::Text("reason", "wrong-window")),
        ],
    ),
    (
        Refusal::NotAdmitted,
        "1 7 frame = refused 4 not-admitted",
        &[
            FRAME,
            REFUSED,
            Field::Plain(Plain::Number("refusal", 4)),
            Field::Plain(Plain::Text("reason", "not-admitted")),
        ],
    ),
    (
        Refusal::NoId,
        "1 7 frame = refused 5 no-id",
        &[
            FRAME,
            REFUSED,
            Field::Plain(Plain::Number("refusal", 5)),
            Field::Plain(Plain::Text("reason", "no-id")),
        ],
    ),
    (
        Refusal::NoLicence,
        "1 7 frame = refused 6 no-licence",
        &[
            FRAME,
            REFUSED,
            Field::Plain(Plain::Number("refusal", 6)),
            Field::Plain(Plain::Text("reason", "no-licence")),
        ],
    ),
    (
        Refusal::Busy,
        "1 7 frame = refused 7 busy",
        &[
            FRAME,
            REFUSED,
            Field::Plain(Plain::Number("refusal", 7)),
            Field::Plain(Plain::Text("reason", "busy")),
        ],
    ),
    (
        Refusal::NotActive,
        "1 7 frame = refused 8 not-active",
        &[
            FRAME,
            REFUSED,
            Field::Plain(Plain::Number("refusal", 8)),
            Field::Plain(Plain::Text("reason", "not-active")),
        ],
    ),
    (
        Refusal::NotOperating,
        "1 7 frame = refused 9 not-operating",
        &[
            FRAME,
            REFUSED,
            Field::Plain(Plain::Number("refusal", 9)),
            Field::Plain(Plain::Text("reason", "not-operating")),
        ],
    ),
    (
        Refusal::PendingAlloc,
        "1 7 frame = refused 10 pending-alloc",
        &[
            FRAME,
            REFUSED,
            Field::Plain(Plain::Number("refusal", 10)),
            Field::Plain(Plain::Text("reason", "pending-alloc")),
        ],
    ),
    (
        Refusal::AllocFull,
        "1 7 frame = refused 11 alloc-full",
        &[
            FRAME,
            REFUSED,
            Field::Plain(Plain::Number("refusal", 11)),
            Field::Plain(Plain::Text("reason", "alloc-full")),
        ],
    ),
    (
        Refusal::NotHeld,
        "1 7 frame = refused 12 not-held",
        &[
            FRAME,
            REFUSED,
            Field::Plain(Plain::Number("refusal", 12)),
            Field::Plain(Plain::Text("reason", "not-held")),
        ],
    ),
    (
        Refusal::NoAlloc,
        "1 7 frame = refused 13 no-alloc",
        &[
            FRAME,
            REFUSED,
            Field::Plain(Plain::Number("refusal", 13)),
            Field::Plain(Plain::Text("reason", "no-alloc")),
        ],
    ),
    (
        Refusal::AlreadySearching,
        "1 7 frame = refused 14 already-searching",
        &[
            FRAME,
            REFUSED,
            Field::Plain(Plain::Number("refusal", 14)),
            Field::Plain(Plain::Text("reason", "already-searching")),
        ],
    ),
];

/// Tells whether a frame that is answered by a reply has its line and its fields.
fn is_reply(alloc: Global, row: &ReplyRow) -> Result<bool, AllocError> {
    let (reply, text, fields) = *row;
    is_told(alloc, Event::Frame, Answer::from(reply), text, fields)
}

#[test]
fn replies(rt: HostRuntime) {
    for row in &REPLIES {
        assert!(rt; is_reply(rt.alloc(), row) == Ok(true), "{}", row.1);
    }
}

/// Tells whether a frame that is refused has its line and its fields.
fn is_refusal(alloc: Global, row: &RefusalRow) -> Result<bool, AllocError> {
    let (refusal, text, fields) = *row;
    let answer = Answer::from(Reply::Refused(refusal));
    is_told(alloc, Event::Frame, answer, text, fields)
}

#[test]
fn refusals(rt: HostRuntime) {
    for row in &REFUSALS {
        assert!(rt; is_refusal(rt.alloc(), row) == Ok(true), "{}", row.1);
    }
}

/// The fields of a unit that is shown, behind the first two: its ONU-ID is 3.
const SHOW: Field = Field::Plain(Plain::Text("event", "show"));

const SERIAL: Field = Field::Plain(Plain::Text("serial", "ABCD00000001"));

const UNIT: Field = Field::Plain(Plain::Text("reply", "unit"));

const ONU: Field = Field::Plain(Plain::Number("onu", 3));

const RANGING: Field = Field::Plain(Plain::Text("phase", "ranging"));

const OPERATING: Field = Field::Plain(Plain::Text("phase", "operating"));

const ATTEMPTS: Field = Field::Plain(Plain::Number("attempts", 0));

const EQD: Field = Field::Plain(Plain::Number("eqd", 211_040));

static RANGING_ALONE: [Field; 8] = [
    SHOW,
    SERIAL,
    UNIT,
    ONU,
    RANGING,
    ATTEMPTS,
    Field::Plain(Plain::Text("allocs", "-")),
    Field::List("alloc_list", &[]),
];

static OPERATING_ALONE: [Field; 8] = [
    SHOW,
    SERIAL,
    UNIT,
    ONU,
    OPERATING,
    EQD,
    Field::Plain(Plain::Text("allocs", "-")),
    Field::List("alloc_list", &[]),
];

static OPERATING_WITH_ONE: [Field; 8] = [
    SHOW,
    SERIAL,
    UNIT,
    ONU,
    OPERATING,
    EQD,
    Field::Plain(Plain::Text("allocs", "300")),
    Field::List(
        "alloc_list",
        &[&[Plain::Number("alloc", 300), Plain::Truth("leaving", false)]],
    ),
];

static RANGING_WITH_THREE: [Field; 8] = [
    SHOW,
    SERIAL,
    UNIT,
    ONU,
    RANGING,
    ATTEMPTS,
    Field::Plain(Plain::Text("allocs", "256!,300,4095")),
    Field::List(
        "alloc_list",
        &[
            &[Plain::Number("alloc", 256), Plain::Truth("leaving", true)],
            &[Plain::Number("alloc", 300), Plain::Truth("leaving", false)],
            &[
                Plain::Number("alloc", 4_095),
                Plain::Truth("leaving", false),
            ],
        ],
    ),
];

/// Adds an Alloc-ID where there is room for one.
fn with_alloc(mut allocs: Allocs, alloc: u16, leaving: bool) -> Allocs {
    if allocs.len() < 8 {
        allocs.insert(alloc, leaving);
    }
    allocs
}

/// Tells whether a unit that is shown has this line and these fields.
fn is_shown(alloc: Global, row: Row, text: &str, fields: &[Field]) -> Result<bool, AllocError> {
    let show = Event::Command(Command::Show(A));
    is_told(alloc, show, Answer::from(Reply::Shown(row)), text, fields)
}

/// A unit that operates, with these Alloc-IDs.
fn operating(allocs: Allocs) -> Row {
    let phase = Phase::Operating {
        eqd: 211_040,
        dark: 1,
        garbled: 2,
    };
    Row {
        phase,
        allocs,
        ..Row::ranging(3)
    }
}

/// A unit that is ranged, with three Alloc-IDs, of which one leaves.
fn ranging_with_three() -> Row {
    let held = with_alloc(with_alloc(Allocs::new(), 300, false), 4_095, false);
    Row {
        allocs: with_alloc(held, 256, true),
        ..Row::ranging(3)
    }
}

#[test]
fn shown_units(rt: HostRuntime) {
    let alone = operating(Allocs::new());
    let one = operating(with_alloc(Allocs::new(), 300, false));
    let three = ranging_with_three();
    let text = "1 7 show ABCD00000001 = unit 3 ranging 0 allocs -";
    let right = is_shown(rt.alloc(), Row::ranging(3), text, &RANGING_ALONE);
    assert!(rt; right == Ok(true), "{text}");
    let text = "1 7 show ABCD00000001 = unit 3 operating 211040 allocs -";
    let right = is_shown(rt.alloc(), alone, text, &OPERATING_ALONE);
    assert!(rt; right == Ok(true), "{text}");
    let text = "1 7 show ABCD00000001 = unit 3 operating 211040 allocs 300";
    let right = is_shown(rt.alloc(), one, text, &OPERATING_WITH_ONE);
    assert!(rt; right == Ok(true), "{text}");
    let text = "1 7 show ABCD00000001 = unit 3 ranging 0 allocs 256!,300,4095";
    let right = is_shown(rt.alloc(), three, text, &RANGING_WITH_THREE);
    assert!(rt; right == Ok(true), "{text}");
}
