//! What events of a script are played on, by one of two: the ports, or the fibre of one port.
ghost use Rattle.std.specs.Prelude.{◌≡◌, ◌↔◌, ◌≤◌, ◌^◌, IsTrue, Some};
ghost use Rattle.gp_replay.specs.Playing.{count_of};

use super::fault::PlayFault;
use super::trace_out::TraceOut;
use gp_machine::Entry;
use gp_onu::UnitStatus;
use gp_ranging::Grant;
use gp_script::ScriptEvent;
use std::io::Write;

/// What the events of a script are played on, which writes the line of each entry: a chassis, or the fibre of one
/// port with its simulated units.
pub trait EventPlayer {
    ghost use Rattle.std.specs.Prelude.{◌≡◌, ◌<◌, Err, IfOk, OnOk};
    ghost use Rattle.gp_script.specs.declared.script.ScriptEvent.TheVariants as events;
    ghost use Rattle.gp_script.specs.View.{NamesOneOf};
    ghost use Rattle.gp_replay.specs.Playing.{HasRoomFor, Keeps, MakesGrant, Playing, count_of};
    ghost use Rattle.gp_replay.specs.Writing.{PlaysOn, Writes};
    ghost use Rattle.gp_replay.specs.Out.{KeepsOut};

    // What playing an event means, and for how many there is room.
    ghost playing: { Playing Self };

    /// How many ports there are.
    fn ports(&self) -> usize
        ensures { result ≡ playing.ports self.now };

    /// How many simulated units there are.
    fn units(&self) -> usize
        ensures { result ≡ playing.units self.now };

    /// What the simulated unit at this place is, if there is one.
    fn unit_status(&self, unit: u16) -> Option<UnitStatus>
        ensures { result ≡ playing.status self.now unit };

    /// Plays an event, and writes its lines.
    fn play_event<W: Write>(
        &mut self,
        out: &mut TraceOut<'_, W>,
        event: &ScriptEvent,
    ) -> Result<(), PlayFault>
        requires named { NamesOneOf (playing.ports self.old) (playing.units self.old) event.now }
        requires room { HasRoomFor playing (count_of event.now) self.old }
        ensures plays { PlaysOn out.old.mask (playing.whole event.now) (playing.part event.now)
            self.old self.new out.old.sink.now out.new.sink.now result }
        ensures keeps { OnOk result (Keeps playing (count_of event.now) self.old self.new) }
        ensures memory { result ≡ Err PlayFault.OutOfMemory → playing.refuses }
        ensures same { KeepsOut out.old out.new };

    /// Plays one frame of a port, writes its lines, and tells whether the port makes this grant in it.
    fn play_frame<W: Write>(
        &mut self,
        out: &mut TraceOut<'_, W>,
        port: u8,
        grant: Grant,
    ) -> Result<bool, PlayFault>
        requires named { port < playing.ports self.old }
        requires room { HasRoomFor playing 1 self.old }
        ensures plays { let frame = events.Frames port 1 in
            PlaysOn out.old.mask (playing.whole frame) (playing.part frame)
            self.old self.new out.old.sink.now out.new.sink.now result }
        ensures made { IfOk result (λ made.
            Writes out.old.mask (MakesGrant grant made (playing.whole (events.Frames port 1)))
            self.old self.new out.old.sink.now out.new.sink.now) }
        ensures keeps { OnOk result (Keeps playing 1 self.old self.new) }
        ensures memory { result ≡ Err PlayFault.OutOfMemory → playing.refuses }
        ensures same { KeepsOut out.old out.new };
}

/// Tells whether an entry makes this grant.
pub(crate) fn makes_grant(entry: &Entry, grant: Grant) -> bool
    ensures { IsTrue result ↔ (entry.now.answer.grant ≡ Some grant) }
{
    is_grant(entry.answer.grant, grant)
}

/// Tells whether the grant that was made, if one was, is this one.
pub(crate) fn is_grant(made: Option<Grant>, grant: Grant) -> bool
    ensures { IsTrue result ↔ (made ≡ Some grant) }
{
    made == Some(grant)
}

/// States that an event of a script is no more frames than its type can count.
pub(crate) fn event_is_short(event: &ScriptEvent)
    ensures { count_of event.now ≤ 2 ^ 32 }
{
    match event {
        ScriptEvent::Frames { port: _, count } => count_is_short(*count),
        ScriptEvent::Burst { .. } | ScriptEvent::Command { .. } | ScriptEvent::Light { .. } => {}
    }
}

/// States it of a number of frames.
fn count_is_short(count: u32)
    ensures { count ≤ 2 ^ 32 }
{}
