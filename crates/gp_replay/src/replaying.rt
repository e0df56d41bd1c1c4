//! A script that was read, played from its opening to its end.
ghost use Rattle.std.specs.Prelude.{◌≡◌, ◌≢◌, ◌<◌, [], Err, length, true};
ghost use Rattle.gp_script.specs.Playable.{IsPlayable};
ghost use Rattle.gp_script.specs.Script.{script_of};
ghost use Rattle.gp_script.specs.View.{script_view};
ghost use Rattle.gp_replay.specs.Lights.{TellsScript};
ghost use Rattle.gp_replay.specs.Outcome.{LeavesReplay, RunEnds, RunReads, RunWrites};
ghost use Rattle.gp_replay.specs.Writing.{PlaysScript};

use super::fault::{PlayFault, RunFault};
use super::laws::each_port_runs;
use super::lights::tell_events;
use super::opening::{Opened, open_chassis, open_fibre};
use super::play_end::end_play;
use super::trace_out::TraceOut;
use gp_licence::MAX_LICENCES;
use gp_script::Script;
use gp_stream::{Sink, Source};
use std::alloc::Global;
use std::io::{Read, Write};
use std::marker::Brand;
use std::sync::ledger::{Blank, Ledger};

/// Plays a script without simulated units on a chassis of its own, whose ledger is the blank, and tells it.
fn play_on_chassis<L: Ledger, W: Write>(
    alloc: Global,
    blank: Blank,
    script: Script,
    lights: bool,
    sink: &mut Sink<W>,
) -> Result<(), PlayFault>
    requires name { blank.name ≡ L.name }
    requires parts { (blank.parts ≡ L.parts) × (L.parts ≡ MAX_LICENCES) }
    requires playable { IsPlayable (script_view script) }
    requires no_units { script.units.items ≡ [] }
    ensures { TellsScript lights (script_view script) sink.old sink.new result }
{
    each_port_runs();
    let Opened {
        mut player,
        mut buffer,
        mask,
        events,
    } = open_chassis::<L>(alloc, blank, script)?;
    let mut out = TraceOut {
        sink,
        buffer: &mut buffer,
        mask,
    };
    let played = tell_events(&mut player, &mut out, events.as_slice(), lights);
    player.close();
    end_play(out.sink, played)
}

/// Plays a script with simulated units on a fibre of its own, whose ledger is the blank, and tells it, with the light
/// that comes and goes where that is wanted. Entries are written as they come, a few frames' at a time, so memory for
/// them stays small however long the trace is; the script's limit of journals means nothing here.
fn play_on_fibre<L: Ledger, W: Write>(
    alloc: Global,
    blank: Blank,
    script: Script,
    lights: bool,
    sink: &mut Sink<W>,
) -> Result<(), PlayFault>
    requires name { blank.name ≡ L.name }
    requires parts { (blank.parts ≡ L.parts) × (L.parts ≡ MAX_LICENCES) }
    requires playable { IsPlayable (script_view script) }
    requires units { 0 < length script.units.items }
    ensures { TellsScript lights (script_view script) sink.old sink.new result }
{
    let Opened {
        mut player,
        mut buffer,
        mask,
        events,
    } = open_fibre::<L>(alloc, blank, script)?;
    let mut out = TraceOut {
        sink,
        buffer: &mut buffer,
        mask,
    };
    let outcome = tell_events(&mut player, &mut out, events.as_slice(), lights);
    player.close();
    end_play(out.sink, outcome)
}

/// Plays a script on a ledger of its own, which is the blank: on a chassis, or, where it has simulated units, on the
/// fibre of its one port.
fn play_on<L: Ledger, W: Write>(
    alloc: Global,
    blank: Blank,
    script: Script,
    lights: bool,
    sink: &mut Sink<W>,
) -> Result<(), PlayFault>
    requires name { blank.name ≡ L.name }
    requires parts { (blank.parts ≡ L.parts) × (L.parts ≡ MAX_LICENCES) }
    requires playable { IsPlayable (script_view script) }
    ensures { TellsScript lights (script_view script) sink.old sink.new result }
{
    if script.units.is_empty() {
        play_on_chassis::<L, W>(alloc, blank, script, lights, sink)
    } else {
        play_on_fibre::<L, W>(alloc, blank, script, lights, sink)
    }
}

/// Plays a script that was read, and writes its trace, all of it or up to the first fault. Memory for its ports is
/// taken before the first event is played. No entry is kept longer than its line takes; with simulated units those of
/// 256 frames are kept at most, for which memory is taken too, so there `OutOfMemory` can also come while the script is
/// played. The lines of all entries up to there are written out then, and `OutOfMemory` is told even where that write
/// fails. The script's `journal_limit` means nothing here.
///
/// What the sink gathered before goes out first. To a sink that has stopped nothing is written; a fault of memory still
/// comes first, and else `Write` is answered.
pub fn play_script<W: Write>(
    alloc: Global,
    script: Script,
    sink: &mut Sink<W>,
) -> Result<(), PlayFault>
    requires { IsPlayable (script_view script) }
    ensures { PlaysScript (script_view script) sink.old sink.new result }
{
    let blank = Blank::new(u64::from(MAX_LICENCES));
    play_on::<Brand, W>(alloc, blank, script, false, sink)
}

/// Plays a script that was read, and writes its trace as `play_script` does, with a line of its own, `unit I light` or
/// `unit I dark`, for each event with which light comes or goes at a simulated unit, in its place. These lines are no
/// lines of the trace, and take no memory.
pub fn play_with_lights<W: Write>(
    alloc: Global,
    script: Script,
    sink: &mut Sink<W>,
) -> Result<(), PlayFault>
    requires { IsPlayable (script_view script) }
    ensures { TellsScript true (script_view script) sink.old sink.new result }
{
    let blank = Blank::new(u64::from(MAX_LICENCES));
    play_on::<Brand, W>(alloc, blank, script, true, sink)
}

/// Reads a script to the end of the source, and plays it as `play_script` does. Memory for the script is taken before
/// that for its ports.
///
/// Of a source with a failed read nothing is read, and `Read` is answered. To a sink that has stopped nothing is
/// written; a fault of reading, of the script or of memory still comes first, and else `Write` is answered.
pub fn run_replay<R: Read, W: Write>(
    alloc: Global,
    source: &mut Source<R>,
    sink: &mut Sink<W>,
) -> Result<(), RunFault>
    ensures ends { RunEnds script_of (LeavesReplay sink.old sink.new) source.old source.new sink.old sink.new result }
    ensures reads { RunReads script_of source.old source.new result }
    ensures writes { RunWrites sink.old sink.new result }
    ensures mismatch { result ≢ Err RunFault.Mismatch }
    ensures journal_full { result ≢ Err RunFault.JournalFull }
{
    let bytes = gp_stream::read_all(alloc, source)?;
    let script = gp_script::read_script(alloc, bytes.as_slice())?;
    play_script(alloc, script, sink)?;
    Ok(())
}
