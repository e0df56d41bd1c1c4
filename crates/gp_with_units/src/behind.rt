//! A text that is written behind what a writer holds, and what a teller leaves to its writer. It takes no memory.
ghost use Rattle.std.specs.Prelude.{◌≡◌, ◌<◌, ℕ, IfErr, None, OnErr, OnOk, length, take};
ghost use Rattle.std.specs.Io.KnownBytes.{Appends};
ghost use Rattle.gp_tell.specs.Teller.{HasAll, HasPrefix};
ghost use Rattle.gp_with_units.specs.Behind.{is_plain, stopped_by};

use gp_explain::Form;
use gp_stream::WriteStopped;
use gp_tell::{Began, TellFault, Teller};
use std::io::Write;

/// Tells whether lines that are told in this form, with the times of ports or without, are written as they are.
pub fn is_plain(form: Form, timed: bool) -> bool
    ensures { result ≡ is_plain form timed }
{
    match form {
        Form::Plain => !timed,
        Form::Words | Form::Json => false,
    }
}

/// Writes all octets, in as many writes as it takes. Where one fails or takes nothing, none comes after it.
fn write_all<W: Write>(writer: &mut W, text: &[u8]) -> Result<(), WriteStopped>
    ensures all { OnOk result (Appends (W.contents writer.old) (W.contents writer.new) text.now) }
    ensures part { OnErr result ((count : ℕ)
        × Appends (W.contents writer.old) (W.contents writer.new) (take count text.now)) }
{
    let mut at = 0;
    'writes: while at < text.len() {
        match writer.write(&text[at..]) {
            Ok(count) if count > 0 => at += count,
            _ => return Err(WriteStopped),
        }
    }
    Ok(())
}

/// Writes a text, and has the writer flushed behind it, if there is any. Where a write fails or takes nothing, nothing
/// more is written; a flush that fails counts as a failed write.
pub(crate) fn write_text<W: Write>(writer: &mut W, text: &[u8]) -> Result<(), WriteStopped>
    ensures all { OnOk result (Appends (W.contents writer.old) (W.contents writer.new) text.now) }
    ensures part { OnErr result ((0 < length text.now) × (count : ℕ)
        × Appends (W.contents writer.old) (W.contents writer.new) (take count text.now)) }
{
    if text.is_empty() {
        return Ok(());
    }
    write_all(writer, text)?;
    writer.flush().map_err(|_| WriteStopped)
}

/// Has a teller write out all that it told, if it has no fault, and gives the writer below.
pub(crate) fn written_out<T: Began, W: Write + Drop>(
    teller: Teller<T, W>,
) -> (Result<(), TellFault>, W)
    ensures all { OnOk result.0 ((teller.fault ≡ None) × HasAll T.manner teller.taken T.held (W.contents result.1)) }
    ensures part { IfErr result.0 (λ fault. (fault ≡ stopped_by teller.fault)
        × HasPrefix T.manner teller.taken T.held (W.contents result.1)) }
{
    let mut teller = teller;
    let told = teller.finish();
    (told, teller.into_inner())
}
