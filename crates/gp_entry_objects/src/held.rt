//! What the types of an entry hold: numbers of 64 bits at most, and codes that are told.
ghost use Rattle.std.specs.Prelude.{false, true};
ghost use Rattle.std.specs.Option.{ForSome};
ghost use Rattle.gp_ploam.specs.Down.{IsProperDown};
ghost use Rattle.gp_entry_objects.specs.Held.{CommandHolds, EventHolds, GrantHolds, IsCodeTold, IsSmall, PhaseHolds, ReplyHolds, SentHolds};

use gp_machine::{Command, Event, Phase, Reply};
use gp_ploam::{Down, Mask, decode_down, decode_up, encode_down};
use gp_ranging::Grant;

/// A code of a unit is told.
fn up_code_is_told(mask: Mask, octets: &[u8; 13])
    ensures { IsCodeTold true mask octets.now }
{
    match decode_up(octets, mask) {
        Ok(_message) => {}
        Err(_) => {}
    }
}

/// A code of the line terminal is told.
fn down_code_is_told(mask: Mask, octets: &[u8; 13])
    ensures { IsCodeTold false mask octets.now }
{
    match decode_down(octets, mask) {
        Ok(_message) => {}
        Err(_) => {}
    }
}

/// A number has 64 bits at most.
pub(crate) fn is_small(number: u64)
    ensures { IsSmall number }
{
    let _number = number;
}

/// The number of a command has.
fn command_holds(command: &Command)
    ensures { CommandHolds command.now }
{
    if let Command::Dealloc { alloc, .. } = command {
        is_small(u64::from(*alloc));
    }
}

/// The code of an event is told, and its numbers have 64 bits at most.
pub(crate) fn event_holds(told: Mask, event: &Event)
    ensures { EventHolds told event.now }
{
    match event {
        Event::Frame => {}
        Event::Burst { at, bytes } => {
            is_small(u64::from(*at));
            up_code_is_told(told, bytes);
        }
        Event::Command(command) => command_holds(command),
    }
}

/// The code of a message that was sent is told.
pub(crate) fn sent_holds(mask: Mask, told: Mask, sent: &Option<Down>)
    requires { ForSome sent.now IsProperDown }
    ensures { SentHolds mask told sent.now }
{
    if let Some(message) = sent {
        down_code_is_told(told, &encode_down(message, mask));
    }
}

/// The number of a grant has 64 bits at most.
pub(crate) fn grant_holds(grant: &Option<Grant>)
    ensures { GrantHolds grant.now }
{
    match grant {
        Some(Grant::Range(onu)) => is_small(u64::from(*onu)),
        Some(Grant::Poll(onu)) => is_small(u64::from(*onu)),
        Some(Grant::Search) => {}
        None => {}
    }
}

/// The number of a phase has.
fn phase_holds(phase: &Phase)
    ensures { PhaseHolds phase.now }
{
    match phase {
        Phase::Ranging { attempts, .. } => is_small(u64::from(*attempts)),
        Phase::Operating { eqd, .. } => is_small(u64::from(*eqd)),
    }
}

/// The numbers of a reply have.
pub(crate) fn reply_holds(reply: &Reply)
    ensures { ReplyHolds reply.now }
{
    match reply {
        Reply::Found(onu) => is_small(u64::from(*onu)),
        Reply::Again(onu) => is_small(u64::from(*onu)),
        Reply::Repeat(onu) => is_small(u64::from(*onu)),
        Reply::Restarted(onu) => is_small(u64::from(*onu)),
        Reply::Ranged { onu, eqd } => {
            is_small(u64::from(*onu));
            is_small(u64::from(*eqd));
        }
        Reply::TooFar(onu) => is_small(u64::from(*onu)),
        Reply::StillRanging(onu) => is_small(u64::from(*onu)),
        Reply::Alive(onu) => is_small(u64::from(*onu)),
        Reply::Acked(alloc) => is_small(u64::from(*alloc)),
        Reply::Gasp(onu) => is_small(u64::from(*onu)),
        Reply::Allocated(alloc) => is_small(u64::from(*alloc)),
        Reply::Releasing(alloc) => is_small(u64::from(*alloc)),
        Reply::Deactivated(onu) => is_small(u64::from(*onu)),
        Reply::PoppedUp(onu) => is_small(u64::from(*onu)),
        Reply::PoppedUpAll(count) => is_small(u64::from(*count)),
        Reply::Shown(row) => {
            is_small(u64::from(row.onu));
            phase_holds(&row.phase);
        }
        Reply::Ticked
        | Reply::Refused(_)
        | Reply::Searching
        | Reply::DisabledSeen
        | Reply::Disabled
        | Reply::Enabled
        | Reply::EnabledAll => {}
    }
}
