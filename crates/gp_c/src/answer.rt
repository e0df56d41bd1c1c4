//! What an event gave, as plain numbers: the reply, what was sent and granted, the alarm. A number that the reply has
//! no use for is 0.
ghost use Rattle.std.specs.Prelude.{◌≡◌};
ghost use Rattle.std.specs.Option.{ForSome};
ghost use Rattle.gp_ploam.specs.Down.{IsProperDown};
ghost use Rattle.gp_ploam.specs.Mask.{mask_value};
ghost use Rattle.gp_c.specs.Answers as spec;

use gp_alarms::AlarmKind;
use gp_machine::{Answer, Reply};
use gp_ploam::{Mask, encode_down};
use gp_ranging::Grant;

/// What an event gave. A number that its kind has no use for is 0.
#[repr(C)]
#[derive(Clone, Copy, Debug)]
pub struct AnswerNumbers {
    /// How many entries the port had before this one.
    pub number: u64,
    /// The equalization delay of a unit that was ranged, in bit times.
    pub eqd: u32,
    /// An Alloc-ID that was acknowledged, is assigned or is to be given back.
    pub alloc: u16,
    /// The kind of the reply, 0 to 22.
    pub reply: u8,
    /// Why the event was refused, 1 to 14.
    pub refusal: u8,
    /// The ONU-ID that the reply is about.
    pub onu: u8,
    /// How many units are to be ranged anew.
    pub count: u8,
    /// The kind of the grant: 0 none, 1 search, 2 range, 3 poll.
    pub grant: u8,
    /// The ONU-ID that a grant of kind 2 or 3 asks.
    pub grant_onu: u8,
    /// The kind of the alarm: 0 none, 1 LOS, 2 LOAM, 3 LOA, 4 SUF, 5 DF, 6 DG.
    pub alarm: u8,
    /// The serial number of the alarm's unit.
    pub alarm_serial: [u8; 8],
    /// 1 where a message is sent downstream, with the frame.
    pub is_sent: u8,
    /// The message that is sent.
    pub sent: [u8; 13],
}

/// A reply by numbers.
#[derive(Clone, Copy)]
pub(crate) struct ReplyNumbers {
    pub(crate) kind: u8,
    pub(crate) refusal: u8,
    pub(crate) onu: u8,
    pub(crate) count: u8,
    pub(crate) alloc: u16,
    pub(crate) eqd: u32,
}

/// Makes a reply of this kind, without numbers.
fn bare(kind: u8) -> ReplyNumbers
    ensures { result ≡ spec.bare kind }
{
    ReplyNumbers {
        kind,
        refusal: 0,
        onu: 0,
        count: 0,
        alloc: 0,
        eqd: 0,
    }
}

/// Makes a reply of this kind about a unit.
fn of_unit(kind: u8, onu: u8) -> ReplyNumbers
    ensures { result ≡ spec.of_unit kind onu }
{
    ReplyNumbers { onu, ..bare(kind) }
}

/// Makes a reply of this kind about an Alloc-ID.
fn of_alloc(kind: u8, alloc: u16) -> ReplyNumbers
    ensures { result ≡ spec.of_alloc kind alloc }
{
    ReplyNumbers {
        alloc,
        ..bare(kind)
    }
}

/// Tells a reply by numbers.
pub(crate) fn reply_numbers(reply: &Reply) -> ReplyNumbers
    ensures { result ≡ spec.reply_numbers reply.now }
{
    match *reply {
        Reply::Ticked => bare(0),
        Reply::Refused(refusal) => ReplyNumbers {
            refusal: refusal.number(),
            ..bare(1)
        },
        Reply::Searching => bare(2),
        Reply::Found(onu) => of_unit(3, onu),
        Reply::Again(onu) => of_unit(4, onu),
        Reply::Repeat(onu) => of_unit(5, onu),
        Reply::Restarted(onu) => of_unit(6, onu),
        Reply::DisabledSeen => bare(7),
        Reply::Ranged { onu, eqd } => ReplyNumbers {
            eqd,
            ..of_unit(8, onu)
        },
        Reply::TooFar(onu) => of_unit(9, onu),
        Reply::StillRanging(onu) => of_unit(10, onu),
        Reply::Alive(onu) => of_unit(11, onu),
        Reply::Acked(alloc) => of_alloc(12, alloc),
        Reply::Gasp(onu) => of_unit(13, onu),
        Reply::Allocated(alloc) => of_alloc(14, alloc),
        Reply::Releasing(alloc) => of_alloc(15, alloc),
        Reply::Deactivated(onu) => of_unit(16, onu),
        Reply::Disabled => bare(17),
        Reply::Enabled => bare(18),
        Reply::EnabledAll => bare(19),
        Reply::PoppedUp(onu) => of_unit(20, onu),
        Reply::PoppedUpAll(count) => ReplyNumbers { count, ..bare(21) },
        Reply::Shown(row) => of_unit(22, row.onu),
    }
}

/// Tells a grant by its kind and its ONU-ID.
pub(crate) fn grant_numbers(grant: &Option<Grant>) -> (u8, u8)
    ensures { result ≡ spec.grant_numbers grant.now }
{
    match *grant {
        None => (0, 0),
        Some(Grant::Search) => (1, 0),
        Some(Grant::Range(onu)) => (2, onu),
        Some(Grant::Poll(onu)) => (3, onu),
    }
}

/// Tells the kind of an alarm.
fn kind_number(kind: AlarmKind) -> u8
    ensures { result ≡ spec.kind_number kind }
{
    match kind {
        AlarmKind::Los => 1,
        AlarmKind::Loam => 2,
        AlarmKind::Loa => 3,
        AlarmKind::Suf => 4,
        AlarmKind::Df => 5,
        AlarmKind::Dg => 6,
    }
}

/// Tells by numbers what an event gave, whose entry has this number.
// An alarm and a message are written where they stand, if they are there: most answers have neither.
#[inline(always)]
pub(crate) fn answer_of(mask: Mask, number: u64, answer: &Answer) -> AnswerNumbers
    requires { ForSome answer.now.sent IsProperDown }
    ensures { result ≡ spec.answer_numbers (mask_value mask) number answer.now }
{
    let reply = reply_numbers(&answer.reply);
    let (grant, grant_onu) = grant_numbers(&answer.grant);
    let mut numbers = AnswerNumbers {
        number,
        eqd: reply.eqd,
        alloc: reply.alloc,
        reply: reply.kind,
        refusal: reply.refusal,
        onu: reply.onu,
        count: reply.count,
        grant,
        grant_onu,
        alarm: 0,
        alarm_serial: [0; 8],
        is_sent: 0,
        sent: [0; 13],
    };
    if let Some(alarm) = &answer.alarm {
        numbers.alarm = kind_number(alarm.kind);
        let octets = alarm.serial.0;
        numbers.alarm_serial = octets;
    }
    if let Some(message) = &answer.sent {
        numbers.is_sent = 1;
        let octets = encode_down(message, mask);
        numbers.sent = octets;
    }
    numbers
}
