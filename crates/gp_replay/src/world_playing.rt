//! Events played on the fibre, and the line of each entry written.
ghost use Rattle.std.specs.Prelude.{◌≡◌, ◌+◌, ◌<◌, ◌^◌, ◌↔◌, None, All, IfOk, IsTrue, OnOk, length};
ghost use Rattle.gp_fibre.specs.Schedule.{FramesRun, IsProperEntry, step_fault};
ghost use Rattle.gp_script.specs.View.{NamesOneOf};
ghost use Rattle.gp_stream.specs.Sink.{Gives};
ghost use Rattle.gp_trace.specs.Text.{line_of, trace_text};
ghost use Rattle.gp_replay.specs.Playing.{HasGrant, MakesGrant, TellsEntries, count_of};
ghost use Rattle.gp_replay.specs.WorldPlay.{TakesStep, WorldTakes, receipt_with, receipts_from};
ghost use Rattle.gp_replay.specs.WorldWriting.{HasFibreRoom, MayTakeStep, Numbered, TakesSomeFrames, WorldTakesPart, lost_by};
ghost use Rattle.gp_replay.specs.Writing.{HandsIn, PlaysOn, Writes};
ghost use Rattle.gp_replay.specs.Out.{KeepsOut};

use super::event_player::makes_grant;
use super::fault::PlayFault;
use super::trace_out::TraceOut;
use super::world_player::WorldPlayer;
use gp_fibre::{Losses, WorldStep};
use gp_machine::Entry;
use gp_ranging::Grant;
use gp_script::ScriptEvent;
use gp_stream::WriteStopped;
use std::io::Write;
use std::sync::ledger::Ledger;

/// How many frames are run before their lines are written: so the entries that are kept until then stay few, however
/// many frames an event has.
const FRAMES_AT_ONCE: u32 = 256;

/// For how many entries room is kept from a few frames of an event to the next ones: for some more than 1,024 units
/// want that are all at rest.
const MAX_SPARE: usize = 8192;

/// The number of the only port.
const PORT: u8 = 0;

/// Numbers an entry and writes its line.
fn write_entry<L: Ledger, W: Write>(
    player: &mut WorldPlayer<L>,
    out: &mut TraceOut<'_, W>,
    entry: &Entry,
) -> Result<(), WriteStopped>
    requires proper { IsProperEntry entry.now }
    requires room { player.old.next + 1 < 2 ^ 64 }
    ensures gives { let line = line_of out.old.mask (receipt_with player.old.next entry.now) in
        Gives out.old.sink.now out.new.sink.now line result }
    ensures world { player.new.world ≡ player.old.world }
    ensures next { player.new.next ≡ player.old.next + 1 }
    ensures same { KeepsOut out.old out.new }
{
    let number = player.take_number();
    out.entry(PORT, number, entry)
}

/// Numbers entries and writes their lines.
fn write_entries<L: Ledger, W: Write>(
    player: &mut WorldPlayer<L>,
    out: &mut TraceOut<'_, W>,
    entries: &[Entry],
) -> Result<(), WriteStopped>
    requires proper { All IsProperEntry entries.now }
    requires room { player.old.next + length entries.now < 2 ^ 64 }
    ensures hands { let lines = trace_text out.old.mask (receipts_from player.old.next entries.now) in
        HandsIn out.old.sink.now out.new.sink.now lines result }
    ensures world { player.new.world ≡ player.old.world }
    ensures next { OnOk result (player.new.next ≡ player.old.next + length entries.now) }
    ensures same { KeepsOut out.old out.new }
{
    'entries: for entry in entries {
        write_entry(player, out, entry)?;
    }
    Ok(())
}

/// Takes a step that is possible, and writes the line of its entry, if it has one.
fn play_step<L: Ledger, W: Write>(
    player: &mut WorldPlayer<L>,
    out: &mut TraceOut<'_, W>,
    step: WorldStep,
) -> Result<(), PlayFault>
    requires possible { step_fault player.old.world step ≡ None }
    requires room { HasFibreRoom 1 player.old }
    ensures plays { PlaysOn out.old.mask (Numbered (TakesStep step)) (Numbered (MayTakeStep step))
        player.old player.new out.old.sink.now out.new.sink.now result }
    ensures same { KeepsOut out.old out.new }
{
    let given = player.take_step(step)?;
    if let Some(entry) = given {
        write_entry(player, out, &entry)?;
    }
    Ok(())
}

/// Makes so many frames, and writes the lines of their entries, which take the place of what the list holds. What the
/// fibre need not remember after them it forgets.
fn play_few_frames<L: Ledger, W: Write>(
    player: &mut WorldPlayer<L>,
    out: &mut TraceOut<'_, W>,
    losses: &mut Losses,
    frames: u32,
    entries: &mut Vec<Entry>,
) -> Result<(), PlayFault>
    requires room { HasFibreRoom frames player.old }
    ensures plays { let lost = lost_by losses.old in
        PlaysOn out.old.mask (Numbered (FramesRun lost.copies lost.bursts frames))
        (Numbered (TakesSomeFrames lost frames))
        player.old player.new out.old.sink.now out.new.sink.now result }
    ensures told { let lost = lost_by losses.old in OnOk result
        (Writes out.old.mask (TellsEntries entries.new.items (Numbered (FramesRun lost.copies lost.bursts frames)))
        player.old player.new out.old.sink.now out.new.sink.now) }
    ensures losses { losses.new ≡ losses.old }
    ensures same { KeepsOut out.old out.new }
{
    player.run_frames(frames, losses, entries)?;
    write_entries(player, out, entries.as_slice())?;
    player.forget();
    Ok(())
}

/// Tells whether one of these entries makes the grant.
fn has_grant(entries: &[Entry], grant: Grant) -> bool
    ensures { IsTrue result ↔ HasGrant grant entries.now }
{
    'entries: for entry in entries {
        if makes_grant(entry, grant) {
            return true;
        }
    }
    false
}

/// Makes one frame, writes the lines of its entries, and tells whether the port makes this grant in it.
pub(crate) fn play_one_world_frame<L: Ledger, W: Write>(
    player: &mut WorldPlayer<L>,
    out: &mut TraceOut<'_, W>,
    losses: &mut Losses,
    grant: Grant,
) -> Result<bool, PlayFault>
    requires room { HasFibreRoom 1 player.old }
    ensures plays { let lost = lost_by losses.old in
        PlaysOn out.old.mask (Numbered (FramesRun lost.copies lost.bursts 1)) (Numbered (TakesSomeFrames lost 1))
        player.old player.new out.old.sink.now out.new.sink.now result }
    ensures made { let lost = lost_by losses.old in IfOk result (λ made.
        Writes out.old.mask (MakesGrant grant made (Numbered (FramesRun lost.copies lost.bursts 1)))
        player.old player.new out.old.sink.now out.new.sink.now) }
    ensures losses { losses.new ≡ losses.old }
    ensures same { KeepsOut out.old out.new }
{
    let mut entries = player.no_entries();
    play_few_frames(player, out, losses, 1, &mut entries)?;
    Ok(has_grant(entries.as_slice(), grant))
}

/// Makes so many frames, a few at a time, and writes the lines of their entries.
fn play_frames<L: Ledger, W: Write>(
    player: &mut WorldPlayer<L>,
    out: &mut TraceOut<'_, W>,
    losses: &mut Losses,
    frames: u32,
) -> Result<(), PlayFault>
    requires room { HasFibreRoom frames player.old }
    ensures plays { let lost = lost_by losses.old in
        PlaysOn out.old.mask (Numbered (FramesRun lost.copies lost.bursts frames))
        (Numbered (TakesSomeFrames lost frames))
        player.old player.new out.old.sink.now out.new.sink.now result }
    ensures losses { losses.new ≡ losses.old }
    ensures same { KeepsOut out.old out.new }
{
    let mut entries = player.no_entries();
    let mut left = frames;
    while left > 0 {
        let few = left.min(FRAMES_AT_ONCE);
        play_few_frames(player, out, losses, few, &mut entries)?;
        if entries.capacity() > MAX_SPARE {
            entries = player.no_entries();
        }
        left -= few;
    }
    Ok(())
}

/// Plays one event of a script.
pub(crate) fn play_world_event<L: Ledger, W: Write>(
    player: &mut WorldPlayer<L>,
    out: &mut TraceOut<'_, W>,
    losses: &mut Losses,
    event: &ScriptEvent,
) -> Result<(), PlayFault>
    requires names { NamesOneOf 1 (length player.old.world.fibre.units) event.now }
    requires room { HasFibreRoom (count_of event.now) player.old }
    ensures plays { let lost = lost_by losses.old in
        PlaysOn out.old.mask (Numbered (WorldTakes lost event.now)) (Numbered (WorldTakesPart lost event.now))
        player.old player.new out.old.sink.now out.new.sink.now result }
    ensures losses { losses.new ≡ losses.old }
    ensures same { KeepsOut out.old out.new }
{
    let step = match *event {
        ScriptEvent::Frames { port: _, count } => {
            return play_frames(player, out, losses, count);
        }
        ScriptEvent::Burst { port: _, at, bytes } => WorldStep::Bytes { at, bytes },
        ScriptEvent::Command { port: _, command } => WorldStep::Command(command),
        ScriptEvent::Light { unit, lit: true } => WorldStep::Light(unit),
        ScriptEvent::Light { unit, lit: false } => WorldStep::Dark(unit),
    };
    play_step(player, out, step)
}
