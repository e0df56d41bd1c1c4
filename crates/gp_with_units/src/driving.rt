//! A script that is driven, and what became of its ports and units at the end.
ghost use Rattle.std.specs.Prelude.{◌≡◌, [], IfOk, MatchBool, OnErr, Some, length};
ghost use Rattle.gp_explain.specs.Telling.{no_frames};
ghost use Rattle.gp_script.specs.Playable.{IsPlayable};
ghost use Rattle.gp_script.specs.View.{script_view};
ghost use Rattle.gp_summed.specs.Verifying.{summary_form};
ghost use Rattle.gp_with_units.specs.Behind.{TellsThen, is_plain};
ghost use Rattle.gp_with_units.specs.Driving.{DrivesTold, DrivesWithUnits, drive_ended_by, unanswered_for};

use crate::behind::{is_plain, written_out};
use gp_drive::{DriveFault, DriveManner};
use gp_explain::{Form, Telling};
use gp_flow::{LinesFault, Unanswered};
use gp_script::Script;
use gp_stream::Source;
use gp_summary::SummaryForm;
use gp_summed::{DriveEnded, DriveSummed, drive_summed, summary_form};
use gp_tally::Began;
use gp_tell::{Began as TellingBegan, TellFault, Teller};
use std::alloc::{AllocError, Global};
use std::io::{Read, Write};
use std::marker::Brand;

/// A drive that ended, and the writer that its answers were written to.
#[derive(Drop)]
pub struct DriveWritten<W: Write> {
    /// How it ended, and what became of ports and units, where all lines were answered.
    pub ended: DriveEnded,
    /// The writer.
    pub writer: W,
}

/// A drive that ended for this reason while lines were answered.
fn unanswered_for(fault: Unanswered) -> DriveEnded
    ensures { result ≡ unanswered_for fault }
{
    DriveEnded {
        driven: Err(DriveFault::Turns(LinesFault::Line(fault))),
        summary: None,
    }
}

/// How a drive ends whose teller had a fault.
fn ended_by(fault: TellFault, ended: DriveEnded) -> DriveEnded
    ensures { result ≡ drive_ended_by fault ended }
{
    match fault {
        TellFault::OutOfMemory => unanswered_for(Unanswered::OutOfMemory),
        TellFault::Write => {
            let DriveEnded { driven, summary } = ended;
            match driven {
                Ok(_) => unanswered_for(Unanswered::Write),
                Err(fault) => DriveEnded {
                    driven: Err(fault),
                    summary,
                },
            }
        }
    }
}

/// Has a teller write out what it told of the answers of a drive.
pub(crate) fn end_told<S: TellingBegan, W: Write + Drop>(
    ended: DriveEnded,
    teller: Teller<S, W>,
) -> DriveWritten<W>
    ensures { TellsThen S.manner teller (λ before behind end. (behind ≡ before) × (end ≡ ended))
        (λ fault. drive_ended_by fault ended) S.held (W.contents result.writer) result.ended }
{
    let (told, writer) = written_out(teller);
    match told {
        Ok(()) => DriveWritten { ended, writer },
        Err(fault) => {
            let ended = ended_by(fault, ended);
            DriveWritten { ended, writer }
        }
    }
}

/// Drives a script, and writes what is answered as it is.
fn drive_plain<B: Began, T: Read, W: Write + Drop>(
    alloc: Global,
    manner: DriveManner,
    script: Script,
    form: SummaryForm,
    turns: &mut Source<T>,
    writer: W,
) -> Result<DriveWritten<W>, AllocError>
    requires playable { IsPlayable (script_view script) }
    requires held { W.contents writer ≡ B.held }
    requires mask { B.mask ≡ script.mask }
    requires ports { B.ports ≡ length script.ports.items }
    ensures drives { IfOk result (λ written. DrivesWithUnits T W form manner (script_view script)
        turns.old turns.new B.held (W.contents written.writer) written.ended) }
    ensures idle { OnErr result (turns.new ≡ turns.old) }
{
    let DriveSummed { ended, counting } = drive_summed::<B, T, W>(
        alloc, manner, script, form, turns, writer,
    )?;
    counting.passed_on();
    let (writer, _) = counting.into_parts();
    Ok(DriveWritten { ended, writer })
}

/// Drives a script, and writes what is answered as a teller tells it.
fn drive_by<B: Began, S: TellingBegan, T: Read, W: Write + Drop>(
    alloc: Global,
    manner: DriveManner,
    script: Script,
    form: SummaryForm,
    turns: &mut Source<T>,
    telling: Telling,
    writer: W,
) -> Result<DriveWritten<W>, AllocError>
    requires playable { IsPlayable (script_view script) }
    requires held { B.held ≡ Some [] }
    requires mask { B.mask ≡ script.mask }
    requires ports { B.ports ≡ length script.ports.items }
    requires manner { telling ≡ S.manner }
    requires below { W.contents writer ≡ S.held }
    ensures drives { IfOk result (λ written. DrivesTold T W form S.manner manner (script_view script)
        turns.old turns.new S.held (W.contents written.writer) written.ended) }
    ensures idle { OnErr result (turns.new ≡ turns.old) }
{
    let teller = Teller::<S, W>::new(alloc, telling, writer)?;
    let DriveSummed { ended, counting } = drive_summed::<B, T, Teller<S, W>>(
        alloc, manner, script, form, turns, teller,
    )?;
    counting.passed_on();
    let (teller, _) = counting.into_parts();
    Ok(end_told(ended, teller))
}

/// Drives a script, and writes what is answered as this teller tells it.
fn drive_told<S: TellingBegan, T: Read, W: Write + Drop>(
    alloc: Global,
    manner: DriveManner,
    script: Script,
    form: SummaryForm,
    turns: &mut Source<T>,
    telling: Telling,
    writer: W,
) -> Result<DriveWritten<W>, AllocError>
    requires playable { IsPlayable (script_view script) }
    requires manner { telling ≡ S.manner }
    requires below { W.contents writer ≡ S.held }
    ensures drives { IfOk result (λ written. DrivesTold T W form S.manner manner (script_view script)
        turns.old turns.new S.held (W.contents written.writer) written.ended) }
    ensures idle { OnErr result (turns.new ≡ turns.old) }
{
    drive_by::<Brand, S, T, W>(alloc, manner, script, form, turns, telling, writer)
}

/// Drives a script as `gp_summed::drive_summed` does, and writes what is answered as it is, or, in another form than
/// `Plain` or with the times of ports, as a teller tells it. What became of ports and units is answered, and not
/// written.
///
/// Memory is taken as there, and for what is told of a line. Where that is refused at the beginning, an error is
/// answered, and nothing was done.
pub fn drive_with_units<T: Read, W: Write + Drop>(
    alloc: Global,
    manner: DriveManner,
    script: Script,
    form: Form,
    timed: bool,
    turns: &mut Source<T>,
    writer: W,
) -> Result<DriveWritten<W>, AllocError>
    requires { IsPlayable (script_view script) }
    ensures drives { IfOk result (λ written. MatchBool (is_plain form timed)
        (DrivesWithUnits T W (summary_form form) manner (script_view script) turns.old turns.new
        (W.contents writer) (W.contents written.writer) written.ended)
        (DrivesTold T W (summary_form form)
        (record { mask = script.mask; form = form; timed = timed; frames = no_frames }) manner (script_view script)
        turns.old turns.new (W.contents writer) (W.contents written.writer) written.ended)) }
    ensures idle { OnErr result (turns.new ≡ turns.old) }
{
    let sums = summary_form(form);
    if is_plain(form, timed) {
        return drive_plain::<Brand, T, W>(alloc, manner, script, sums, turns, writer);
    }
    let telling = Telling::new(alloc, script.mask, form, timed);
    drive_told::<Brand, T, W>(alloc, manner, script, sums, turns, telling, writer)
}
