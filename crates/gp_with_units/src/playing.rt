//! A script that is played, and what became of its ports and units behind its trace, or in its place.
ghost use Rattle.std.specs.Prelude.{◌≡◌, ◌⊎◌, [], Err, IfOk, MatchBool, Some, length};
ghost use Rattle.gp_explain.specs.Telling.{no_frames};
ghost use Rattle.gp_script.specs.Playable.{IsPlayable};
ghost use Rattle.gp_script.specs.View.{script_view};
ghost use Rattle.gp_summed.specs.Verifying.{summary_form};
ghost use Rattle.gp_with_units.specs.Behind.{TellsThen, is_plain};
ghost use Rattle.gp_with_units.specs.Playing.{PlaysForSummary, PlaysTold, PlaysWithUnits, SumsPlay, play_ended_by};

use crate::behind::{is_plain, write_text, written_out};
use gp_explain::{Form, Telling};
use gp_replay::PlayFault;
use gp_script::Script;
use gp_summary::{Ended, SummaryForm, Summed, play_summed, sum_with_lights};
use gp_summed::summary_form;
use gp_tally::Began;
use gp_tell::{Began as TellingBegan, TellFault, Teller};
use std::alloc::{AllocError, Global};
use std::io::Write;
use std::marker::Brand;

/// A play that ended, and the writer that it was written to.
#[derive(Drop)]
pub struct PlayWritten<W: Write> {
    /// Whether all was played and written, or why not.
    pub played: Result<(), PlayFault>,
    /// The writer.
    pub writer: W,
}

/// Writes the summary of a play that came to its end.
fn write_summary<W: Write>(ended: Ended, writer: &mut W) -> Result<(), PlayFault>
    ensures { SumsPlay ended.played ended.summary (W.contents writer.old) (W.contents writer.new) result }
{
    let Ended { played, summary } = ended;
    played?;
    let text = summary?;
    write_text(writer, text.as_slice())?;
    Ok(())
}

/// How a play ends whose teller had a fault.
pub(crate) fn ended_by(fault: TellFault, played: Result<(), PlayFault>) -> Result<(), PlayFault>
    ensures { result ≡ play_ended_by fault played }
{
    match fault {
        TellFault::OutOfMemory => Err(PlayFault::OutOfMemory),
        TellFault::Write => match played {
            Ok(()) => Err(PlayFault::Write),
            Err(fault) => Err(fault),
        },
    }
}

/// Has a teller write out what it told of a play, and writes its summary behind that.
fn end_told<T: TellingBegan, W: Write + Drop>(ended: Ended, teller: Teller<T, W>) -> PlayWritten<W>
    ensures { TellsThen T.manner teller (SumsPlay ended.played ended.summary)
        (λ fault. play_ended_by fault ended.played) T.held (W.contents result.writer) result.played }
{
    let (told, writer) = written_out(teller);
    match told {
        Ok(()) => {
            let mut writer = writer;
            let played = write_summary(ended, &mut writer);
            PlayWritten { played, writer }
        }
        Err(fault) => {
            let Ended { played, summary: _ } = ended;
            let played = ended_by(fault, played);
            PlayWritten { played, writer }
        }
    }
}

/// Plays a script, and writes its trace as it is and then its summary.
fn play_plain<B: Began, W: Write + Drop>(
    alloc: Global,
    script: Script,
    form: SummaryForm,
    writer: W,
) -> Result<PlayWritten<W>, AllocError>
    requires playable { IsPlayable (script_view script) }
    requires held { W.contents writer ≡ B.held }
    requires mask { B.mask ≡ script.mask }
    requires ports { B.ports ≡ length script.ports.items }
    ensures { IfOk result (λ written.
        PlaysWithUnits W form (script_view script) B.held (W.contents written.writer) written.played) }
{
    let Summed { ended, counting } = play_summed::<B, W>(alloc, script, form, writer)?;
    counting.passed_on();
    let (writer, _) = counting.into_parts();
    let mut writer = writer;
    let played = write_summary(ended, &mut writer);
    Ok(PlayWritten { played, writer })
}

/// Plays a script, and writes its trace as it is told and then its summary.
fn play_by<B: Began, T: TellingBegan, W: Write + Drop>(
    alloc: Global,
    script: Script,
    form: SummaryForm,
    telling: Telling,
    writer: W,
) -> Result<PlayWritten<W>, AllocError>
    requires playable { IsPlayable (script_view script) }
    requires held { B.held ≡ Some [] }
    requires mask { B.mask ≡ script.mask }
    requires ports { B.ports ≡ length script.ports.items }
    requires manner { telling ≡ T.manner }
    requires below { W.contents writer ≡ T.held }
    ensures { IfOk result (λ written.
        PlaysTold W form T.manner (script_view script) T.held (W.contents written.writer) written.played) }
{
    let teller = Teller::<T, W>::new(alloc, telling, writer)?;
    let Summed { ended, counting } = sum_with_lights::<B, Teller<T, W>>(
        alloc, script, form, teller,
    )?;
    counting.passed_on();
    let (teller, _) = counting.into_parts();
    Ok(end_told(ended, teller))
}

/// Plays a script, and writes its trace as this teller tells it and then its summary.
fn play_told<T: TellingBegan, W: Write + Drop>(
    alloc: Global,
    script: Script,
    form: SummaryForm,
    telling: Telling,
    writer: W,
) -> Result<PlayWritten<W>, AllocError>
    requires playable { IsPlayable (script_view script) }
    requires manner { telling ≡ T.manner }
    requires below { W.contents writer ≡ T.held }
    ensures { IfOk result (λ written.
        PlaysTold W form T.manner (script_view script) T.held (W.contents written.writer) written.played) }
{
    play_by::<Brand, T, W>(alloc, script, form, telling, writer)
}

/// Plays a script, and writes its trace and then its summary: what became of each port and unit, and the licences. The
/// trace is written as it is, or, in another form than `Plain` or with the times of ports, as a teller tells it, with
/// the light that comes and goes at simulated units.
///
/// Memory is taken as `gp_summary::play_summed` takes it, and for what is told of a line. Where that is refused at the
/// beginning, an error is answered, and nothing was played and nothing written. `played` says what stopped it later: a
/// failed write, or memory that was refused; a prefix is written then.
pub fn play_with_units<W: Write + Drop>(
    alloc: Global,
    script: Script,
    form: Form,
    timed: bool,
    writer: W,
) -> Result<PlayWritten<W>, AllocError>
    requires { IsPlayable (script_view script) }
    ensures { IfOk result (λ written. MatchBool (is_plain form timed)
        (PlaysWithUnits W (summary_form form) (script_view script) (W.contents writer)
        (W.contents written.writer) written.played)
        (PlaysTold W (summary_form form)
        (record { mask = script.mask; form = form; timed = timed; frames = no_frames }) (script_view script)
        (W.contents writer) (W.contents written.writer) written.played)) }
{
    let sums = summary_form(form);
    if is_plain(form, timed) {
        return play_plain::<Brand, W>(alloc, script, sums, writer);
    }
    let telling = Telling::new(alloc, script.mask, form, timed);
    play_told::<Brand, W>(alloc, script, sums, telling, writer)
}

/// Plays a script, whose trace goes through a writer, and writes its summary alone to another.
fn play_unwritten<B: Began, T: Write + Drop, W: Write>(
    alloc: Global,
    script: Script,
    form: SummaryForm,
    trace: T,
    writer: &mut W,
) -> Result<(), PlayFault>
    requires playable { IsPlayable (script_view script) }
    requires held { T.contents trace ≡ B.held }
    requires mask { B.mask ≡ script.mask }
    requires ports { B.ports ≡ length script.ports.items }
    ensures { ((result ≡ Err PlayFault.OutOfMemory) × (writer.new ≡ writer.old))
        ⊎ PlaysForSummary T form (script_view script) (W.contents writer.old) (W.contents writer.new) result }
{
    let Summed { ended, counting: _ } = play_summed::<B, T>(alloc, script, form, trace)?;
    write_summary(ended, writer)
}

/// Plays a script, whose trace goes through a writer, and writes its summary alone to another, in the form that goes
/// with traces in this one. Where memory is refused, `OutOfMemory` is answered, and nothing is written. Where a write
/// of the summary fails, `Write` is, and a prefix of it is written; so is `Write` where one of the trace's does, and then
/// nothing of the summary is.
pub fn play_for_summary<T: Write + Drop, W: Write>(
    alloc: Global,
    script: Script,
    form: Form,
    trace: T,
    writer: &mut W,
) -> Result<(), PlayFault>
    requires { IsPlayable (script_view script) }
    ensures { ((result ≡ Err PlayFault.OutOfMemory) × (writer.new ≡ writer.old))
        ⊎ PlaysForSummary T (summary_form form) (script_view script) (W.contents writer.old)
        (W.contents writer.new) result }
{
    play_unwritten::<Brand, T, W>(alloc, script, summary_form(form), trace, writer)
}
