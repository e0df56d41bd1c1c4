//! A row for each grant and each alarm, and messages sent before them.
ghost use Rattle.std.specs.Option.{ForSome};
ghost use Rattle.gp_ploam.specs.Down.{IsProperDown};

use super::{A, is_told};
use crate::fields::{Field, Plain};
use gp_alarms::{Alarm, AlarmKind};
use gp_machine::{Answer, Event, Reply};
use gp_ploam::Down;
use gp_ranging::Grant;
use std::alloc::{AllocError, Global};

const FRAME: Field = Field::Plain(Plain::Text("event", "frame"));

const OK: Field = Field::Plain(Plain::Text("reply", "ok"));

/// A grant, the line of a frame that makes it, and the fields of that behind the first two.
type GrantRow = (Grant, &'static str, &'static [Field]);

const GRANTS: [GrantRow; 3] = [
    (
        Grant::Search,
        "1 7 frame = ok grant search",
        &[FRAME, OK, Field::Plain(Plain::Text("grant", "search"))],
    ),
    (
        Grant::Range(0),
        "1 7 frame = ok grant range 0",
        &[
            FRAME,
            OK,
            Field::Plain(Plain::Text("grant", "range")),
            Field::Plain(Plain::Number("grant_onu", 0)),
        ],
    ),
    (
        Grant::Poll(253),
        "1 7 frame = ok grant poll 253",
        &[
            FRAME,
            OK,
            Field::Plain(Plain::Text("grant", "poll")),
            Field::Plain(Plain::Number("grant_onu", 253)),
        ],
    ),
];

/// Tells whether a grant has its line and its fields.
fn is_grant(alloc: Global, row: &GrantRow) -> Result<bool, AllocError> {
    let (grant, text, fields) = *row;
    let answer = Answer {
        grant: Some(grant),
        ..Answer::from(Reply::Ticked)
    };
    is_told(alloc, Event::Frame, answer, text, fields)
}

#[test]
fn grants(rt: HostRuntime) {
    for row in &GRANTS {
        assert!(rt; is_grant(rt.alloc(), row) == Ok(true), "{}", row.1);
    }
}

/// A kind of alarm, and the line of a frame that gives it.
type AlarmRow = (AlarmKind, &'static str, &'static [Field]);

const SERIAL: Field = Field::Plain(Plain::Text("alarm_serial", "ABCD00000001"));

const ALARMS: [AlarmRow; 6] = [
    (
        AlarmKind::Los,
        "1 7 frame = ok alarm LOS ABCD00000001",
        &[FRAME, OK, Field::Plain(Plain::Text("alarm", "LOS")), SERIAL],
    ),
    (
        AlarmKind::Loam,
        "1 7 frame = ok alarm LOAM ABCD00000001",
        &[
            FRAME,
            OK,
            Field::Plain(Plain::Text("alarm", "LOAM")),
            SERIAL,
        ],
    ),
    (
        AlarmKind::Loa,
        "1 7 frame = ok alarm LOA ABCD00000001",
        &[FRAME, OK, Field::Plain(Plain::Text("alarm", "LOA")), SERIAL],
    ),
    (
        AlarmKind::Suf,
        "1 7 frame = ok alarm SUF ABCD00000001",
        &[FRAME, OK, Field::Plain(Plain::Text("alarm", "SUF")), SERIAL],
    ),
    (
        AlarmKind::Df,
        "1 7 frame = ok alarm DF ABCD00000001",
        &[FRAME, OK, Field::Plain(Plain::Text("alarm", "DF")), SERIAL],
    ),
    (
        AlarmKind::Dg,
        "1 7 frame = ok alarm DG ABCD00000001",
        &[FRAME, OK, Field::Plain(Plain::Text("alarm", "DG")), SERIAL],
    ),
];

/// Tells whether an alarm has its line and its fields.
fn is_alarm(alloc: Global, row: &AlarmRow) -> Result<bool, AllocError> {
    let (kind, text, fields) = *row;
    let answer = Answer {
        alarm: Some(Alarm { kind, serial: A }),
        ..Answer::from(Reply::Ticked)
    };
    is_told(alloc, Event::Frame, answer, text, fields)
}

#[test]
fn alarms(rt: HostRuntime) {
    for row in &ALARMS {
        assert!(rt; is_alarm(rt.alloc(), row) == Ok(true), "{}", row.1);
    }
}

const SENT_CODE: Field = Field::Plain(Plain::Text("sent", "ff03004142434400000001001b"));

const SENT_WORDS: Field = Field::Plain(Plain::Text("sent_message", "Assign_ONU-ID 0 ABCD00000001"));

const SENT_FIELDS: Field = Field::Object(
    "sent_fields",
    &[
        Plain::Text("name", "Assign_ONU-ID"),
        Plain::Number("onu", 0),
        Plain::Text("serial", "ABCD00000001"),
    ],
);

static SENT: [Field; 5] = [FRAME, OK, SENT_CODE, SENT_WORDS, SENT_FIELDS];

static SENT_WITH_ALARM: [Field; 7] = [
    FRAME,
    OK,
    SENT_CODE,
    SENT_WORDS,
    SENT_FIELDS,
    Field::Plain(Plain::Text("alarm", "SUF")),
    SERIAL,
];

static ALL: [Field; 9] = [
    FRAME,
    OK,
    SENT_CODE,
    SENT_WORDS,
    SENT_FIELDS,
    Field::Plain(Plain::Text("grant", "range")),
    Field::Plain(Plain::Number("grant_onu", 0)),
    Field::Plain(Plain::Text("alarm", "LOAM")),
    SERIAL,
];

/// Gives the answer of a frame in which this message was sent.
fn sending(grant: Option<Grant>, alarm: Option<AlarmKind>) -> Answer
    ensures { ForSome result.sent IsProperDown }
{
    Answer {
        reply: Reply::Ticked,
        sent: Some(Down::AssignOnu { onu: 0, serial: A }),
        grant,
        alarm: alarm.map(|kind| Alarm { kind, serial: A }),
    }
}

/// Tells whether a message that is sent, with this behind it, has this line and these fields.
fn is_sent(
    alloc: Global,
    grant: Option<Grant>,
    alarm: Option<AlarmKind>,
    text: &str,
    fields: &[Field],
) -> Result<bool, AllocError> {
    is_told(alloc, Event::Frame, sending(grant, alarm), text, fields)
}

/// A message sent, alone and before what may stand behind it.
#[test]
fn messages_sent(rt: HostRuntime) {
    let text = "1 7 frame = ok sent ff03004142434400000001001b";
    let right = is_sent(rt.alloc(), None, None, text, &SENT);
    assert!(rt; right == Ok(true), "{text}");
    let text = "1 7 frame = ok sent ff03004142434400000001001b alarm SUF ABCD00000001";
    let right = is_sent(
        rt.alloc(),
        None,
        Some(AlarmKind::Suf),
        text,
        &SENT_WITH_ALARM,
    );
    assert!(rt; right == Ok(true), "{text}");
    let grant = Some(Grant::Range(0));
    let text =
        "1 7 frame = ok sent ff03004142434400000001001b grant range 0 alarm LOAM ABCD00000001";
    let right = is_sent(rt.alloc(), grant, Some(AlarmKind::Loam), text, &ALL);
    assert!(rt; right == Ok(true), "{text}");
}
