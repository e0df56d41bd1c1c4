//! What a frame and a burst give: an `Answer` without the room for a whole row, small enough to be handed up. It is
//! written to an `Answer` once, at the end.
ghost use Rattle.std.specs.Prelude.{◌≡◌, None, Some};
ghost use Rattle.gp_port.specs.Answers.{answer_to_burst, answer_to_frame};

use gp_alarms::{Alarm, AlarmKind};
use gp_machine::{Answer, Refusal, Reply};
use gp_ploam::{Down, Serial};
use gp_ranging::Grant;

/// What a frame gives. An `Answer` has room for a whole row, which no frame gives, so this is written to it once, at
/// the end.
#[derive(Clone, Copy)]
pub(super) struct FrameAnswer {
    pub(super) sent: Option<Down>,
    pub(super) grant: Option<Grant>,
    pub(super) alarm: Option<Alarm>,
}

impl FrameAnswer {
    /// Writes the answer to a frame that gives this.
    pub(super) fn write(self, answer: &mut Answer)
        ensures { answer.new ≡ answer_to_frame self }
    {
        answer.reply = Reply::Ticked;
        answer.sent = self.sent;
        answer.grant = self.grant;
        answer.alarm = self.alarm;
    }
}

/// What a burst gives, which sends and grants nothing; this is written to an `Answer` once, at the end.
#[derive(Clone, Copy)]
pub(super) struct BurstAnswer {
    pub(super) reply: BurstReply,
    pub(super) alarm: Option<Alarm>,
}

/// What a port replies to a burst: those of `Reply` that are for bursts.
#[derive(Clone, Copy)]
pub(super) enum BurstReply {
    Refused(Refusal),
    Found(u8),
    Again(u8),
    Repeat(u8),
    Restarted(u8),
    DisabledSeen,
    Ranged { onu: u8, eqd: u32 },
    TooFar(u8),
    StillRanging(u8),
    Alive(u8),
    Acked(u16),
    Gasp(u8),
}

impl BurstAnswer {
    /// Writes the answer to a burst that gives this.
    pub(super) fn write(self, answer: &mut Answer)
        ensures { answer.new ≡ answer_to_burst self }
    {
        answer.reply = match self.reply {
            BurstReply::Refused(refusal) => Reply::Refused(refusal),
            BurstReply::Found(onu) => Reply::Found(onu),
            BurstReply::Again(onu) => Reply::Again(onu),
            BurstReply::Repeat(onu) => Reply::Repeat(onu),
            BurstReply::Restarted(onu) => Reply::Restarted(onu),
            BurstReply::DisabledSeen => Reply::DisabledSeen,
            BurstReply::Ranged { onu, eqd } => Reply::Ranged { onu, eqd },
            BurstReply::TooFar(onu) => Reply::TooFar(onu),
            BurstReply::StillRanging(onu) => Reply::StillRanging(onu),
            BurstReply::Alive(onu) => Reply::Alive(onu),
            BurstReply::Acked(alloc) => Reply::Acked(alloc),
            BurstReply::Gasp(onu) => Reply::Gasp(onu),
        };
        answer.sent = None;
        answer.grant = None;
        answer.alarm = self.alarm;
    }
}

/// Makes what a burst gives that is replied to and raises no alarm.
pub(super) fn replies(reply: BurstReply) -> BurstAnswer
    ensures { result ≡ record { reply = reply; alarm = None } }
{
    BurstAnswer { reply, alarm: None }
}

/// Makes what a burst gives that raises an alarm of a unit.
pub(super) fn raises(reply: BurstReply, kind: AlarmKind, serial: Serial) -> BurstAnswer
    ensures { result ≡ record { reply = reply; alarm = Some (record { kind = kind; serial = serial }) } }
{
    BurstAnswer {
        reply,
        alarm: Some(Alarm { kind, serial }),
    }
}

/// Makes what a frame gives that grants nothing.
pub(super) fn ticked(sent: Option<Down>, alarm: Option<Alarm>) -> FrameAnswer
    ensures { result ≡ record { sent = sent; grant = None; alarm = alarm } }
{
    FrameAnswer {
        sent,
        grant: None,
        alarm,
    }
}
