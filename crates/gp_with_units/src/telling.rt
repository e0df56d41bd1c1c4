//! A script that is played or driven, and what is told of its trace, with nothing behind it.
ghost use Rattle.std.specs.Prelude.{◌≡◌, IfOk, OnErr};
ghost use Rattle.gp_explain.specs.Telling.{no_frames};
ghost use Rattle.gp_script.specs.Playable.{IsPlayable};
ghost use Rattle.gp_script.specs.View.{script_view};
ghost use Rattle.gp_with_units.specs.Behind.{TellsThen};
ghost use Rattle.gp_with_units.specs.Playing.{play_ended_by};
ghost use Rattle.gp_with_units.specs.Telling.{TellsDrive, TellsPlay};

use crate::behind::written_out;
use crate::driving::{DriveWritten, end_told};
use crate::playing::{PlayWritten, ended_by};
use gp_drive::{DriveManner, drive_script};
use gp_explain::{Form, Telling};
use gp_replay::{PlayFault, play_with_lights};
use gp_script::Script;
use gp_stream::{Sink, Source};
use gp_summed::DriveEnded;
use gp_tell::{Began, Teller};
use std::alloc::{AllocError, Global};
use std::io::{Read, Write};
use std::marker::Brand;

/// Has a teller write out what it told of a play.
fn end_play<B: Began, W: Write + Drop>(
    played: Result<(), PlayFault>,
    teller: Teller<B, W>,
) -> PlayWritten<W>
    ensures { TellsThen B.manner teller (λ before behind end. (behind ≡ before) × (end ≡ played))
        (λ fault. play_ended_by fault played) B.held (W.contents result.writer) result.played }
{
    let (told, writer) = written_out(teller);
    match told {
        Ok(()) => PlayWritten { played, writer },
        Err(fault) => {
            let played = ended_by(fault, played);
            PlayWritten { played, writer }
        }
    }
}

/// Plays a script, and writes its trace as this teller tells it.
fn play_by<B: Began, W: Write + Drop>(
    alloc: Global,
    script: Script,
    telling: Telling,
    writer: W,
) -> Result<PlayWritten<W>, AllocError>
    requires playable { IsPlayable (script_view script) }
    requires manner { telling ≡ B.manner }
    requires below { W.contents writer ≡ B.held }
    ensures { IfOk result (λ written.
        TellsPlay W B.manner (script_view script) B.held (W.contents written.writer) written.played) }
{
    let teller = Teller::<B, W>::new(alloc, telling, writer)?;
    let mut sink = Sink::new(alloc, teller)?;
    let played = play_with_lights(alloc, script, &mut sink);
    Ok(end_play(played, sink.into_inner()))
}

/// Plays a script, and writes its trace as a teller tells it in this form, with the times of ports or without, and with
/// the light that comes and goes at simulated units.
///
/// Memory is taken for what is told of a line, and as `gp_replay::play_with_lights` takes it. Where the first is
/// refused, an error is answered, and nothing was played and nothing written.
pub fn tell_play<W: Write + Drop>(
    alloc: Global,
    script: Script,
    form: Form,
    timed: bool,
    writer: W,
) -> Result<PlayWritten<W>, AllocError>
    requires { IsPlayable (script_view script) }
    ensures { IfOk result (λ written.
        TellsPlay W (record { mask = script.mask; form = form; timed = timed; frames = no_frames })
        (script_view script) (W.contents writer) (W.contents written.writer) written.played) }
{
    let telling = Telling::new(alloc, script.mask, form, timed);
    play_by::<Brand, W>(alloc, script, telling, writer)
}

/// Drives a script, and writes what is answered as this teller tells it.
fn drive_by<B: Began, T: Read, W: Write + Drop>(
    alloc: Global,
    manner: DriveManner,
    script: Script,
    turns: &mut Source<T>,
    telling: Telling,
    writer: W,
) -> Result<DriveWritten<W>, AllocError>
    requires playable { IsPlayable (script_view script) }
    requires manner { telling ≡ B.manner }
    requires below { W.contents writer ≡ B.held }
    ensures drives { IfOk result (λ written. TellsDrive T W B.manner manner (script_view script)
        turns.old turns.new B.held (W.contents written.writer) written.ended) }
    ensures idle { OnErr result (turns.new ≡ turns.old) }
{
    let teller = Teller::<B, W>::new(alloc, telling, writer)?;
    let mut sink = Sink::new(alloc, teller)?;
    let driven = drive_script(alloc, manner, script, turns, &mut sink);
    let ended = DriveEnded {
        driven,
        summary: None,
    };
    Ok(end_told(ended, sink.into_inner()))
}

/// Drives a script by the lines of a source, and writes what is answered as a teller tells it in this form, with the
/// times of ports or without. There is no summary.
///
/// Memory is taken for what is told of a line, and as `gp_drive::drive_script` takes it. Where the first is refused, an
/// error is answered, and nothing was done.
pub fn tell_drive<T: Read, W: Write + Drop>(
    alloc: Global,
    manner: DriveManner,
    script: Script,
    form: Form,
    timed: bool,
    turns: &mut Source<T>,
    writer: W,
) -> Result<DriveWritten<W>, AllocError>
    requires { IsPlayable (script_view script) }
    ensures drives { IfOk result (λ written. TellsDrive T W
        (record { mask = script.mask; form = form; timed = timed; frames = no_frames }) manner (script_view script)
        turns.old turns.new (W.contents writer) (W.contents written.writer) written.ended) }
    ensures idle { OnErr result (turns.new ≡ turns.old) }
{
    let telling = Telling::new(alloc, script.mask, form, timed);
    drive_by::<Brand, T, W>(alloc, manner, script, turns, telling, writer)
}
