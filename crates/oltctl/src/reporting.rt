//! What is said on standard error, and the exit status that goes with it.
ghost use Rattle.std.specs.Prelude.{◌≡◌};
ghost use Rattle.oltctl.specs.Statuses.{end_status};

use gp_check::{Purpose, placed_line};
use gp_finding::Codes;
use gp_options::BadOption;
use gp_ploam::Mask;
use gp_replay::RunFault;
use gp_report::{BAD_ARGUMENTS, BAD_INPUT, SUCCESS, run_report};
use std::alloc::{AllocError, Global};
use std::io;
use std::io::ErrorKind;

/// Says on standard error what went wrong, and answers the exit status, which says it too where
/// standard error takes nothing.
pub(crate) fn report<R: Eprint>(rt: &R, told: (&'static str, u8)) -> u8
    ensures { result ≡ told.entry.1 }
{
    let (line, status) = told;
    let _ = eprintln!(rt; "{line}");
    status
}

/// Does the same of a line of an input, whose number it says too.
pub(crate) fn report_at<R: Eprint>(rt: &R, told: (&'static str, u8), number: u64) -> u8
    ensures { result ≡ told.entry.1 }
{
    let (line, status) = told;
    let _ = eprintln!(rt; "{line}, line {number}");
    status
}

/// Does the same of a number that is not reached.
pub(crate) fn report_count<R: Eprint>(rt: &R, told: (&'static str, u8), count: u64) -> u8
    ensures { result ≡ told.entry.1 }
{
    let (line, status) = told;
    let _ = eprintln!(rt; "{line}, {count}");
    status
}

/// Says on standard error what went wrong with a replay or a storm, if anything did, and answers the exit status.
pub(crate) fn end_run<R: Eprint>(rt: &R, outcome: &Result<(), RunFault>) -> u8
    ensures { result ≡ end_status outcome.now }
{
    match outcome {
        Ok(()) => SUCCESS,
        Err(fault) => report(rt, run_report(fault)),
    }
}

/// Says on standard error that no line of a log says anything, and answers the exit status.
pub(crate) fn report_silence<R: Eprint>(rt: &R) -> u8
    ensures { result ≡ BAD_INPUT }
{
    report(rt, ("oltctl: nothing was heard", BAD_INPUT))
}

/// Says on standard error that all that was heard is before the frames that are wanted, and answers the exit status.
pub(crate) fn report_before<R: Eprint>(rt: &R, from: u64, last: u64) -> u8
    ensures { result ≡ BAD_INPUT }
{
    let _ = eprintln!(rt; "oltctl: nothing was heard from frame {from} on: the last is {last}");
    BAD_INPUT
}

/// Says on standard error that all that was heard is behind the frames that are wanted, and answers the exit status.
pub(crate) fn report_behind<R: Eprint>(rt: &R, to: u64, first: u64) -> u8
    ensures { result ≡ BAD_INPUT }
{
    let _ = eprintln!(rt; "oltctl: nothing was heard up to frame {to}: the first is {first}");
    BAD_INPUT
}

/// Says on standard error which option can't be read, and answers the exit status.
pub(crate) fn refuse_option<R: Eprint>(rt: &R, option: BadOption<'_>) -> u8
    ensures { result ≡ BAD_ARGUMENTS }
{
    let _ = eprintln!(rt; "oltctl: {option}");
    BAD_ARGUMENTS
}

/// Says on standard error how many lines of a log were not heard, since their time is before that of their port, if any
/// were.
pub(crate) fn tell_fallen<R: Eprint>(rt: &R, fallen: u64) {
    if fallen > 0 {
        let _ = eprintln!(rt; "oltctl: lines whose time falls, not heard: {fallen}");
    }
}

/// Gives the number of a mask, as `--mask` has it.
pub(crate) fn mask_number(mask: Mask) -> u8 {
    match mask {
        Mask::Plain => 0,
        Mask::Coset => 85,
    }
}

/// Says on standard error how many of the codes that came are garbled under the mask, if any are: nothing was heard of
/// those.
pub(crate) fn tell_garbled<R: Eprint>(rt: &R, mask: Mask, codes: &Codes) {
    let Codes { came, garbled } = *codes;
    if garbled > 0 {
        let mask = mask_number(mask);
        let _ = eprintln!(rt;
            "oltctl: codes garbled under mask {mask} (--mask): {garbled} of {came}"
        );
    }
}

/// Says on standard error how many lines came.
pub(crate) fn tell_came<R: Eprint>(rt: &R, lines: u64) {
    let _ = match lines {
        0 => eprintln!(rt; "oltctl: no line came"),
        1 => eprintln!(rt; "oltctl: 1 line came"),
        lines => eprintln!(rt; "oltctl: {lines} lines came"),
    };
}

/// Gives why something failed, without the number that the system has for it.
pub(crate) fn cause_text(alloc: Global, error: &io::Error) -> Result<String, AllocError> {
    let text = format!(in alloc; "{error}")?;
    match text.as_str().split_once(" (os error ") {
        Some((cause, _)) => String::from_str(alloc, cause),
        None => Ok(text),
    }
}

/// Gives why standard input was not read. Where it is closed, a folder stands in its place.
fn input_cause(alloc: Global, error: &io::Error) -> Result<String, AllocError> {
    match error.kind() {
        ErrorKind::IsADirectory => String::from_str(alloc, "closed, or a directory"),
        _ => cause_text(alloc, error),
    }
}

/// Gives why an input was not read, where that is known.
pub(crate) fn unread_cause(
    alloc: Global,
    name: Option<&str>,
    cause: Option<&io::Error>,
) -> Result<String, AllocError> {
    match (name, cause) {
        (_, None) => String::from_str(alloc, "can't be read"),
        (None, Some(error)) => input_cause(alloc, error),
        (Some(_), Some(error)) => cause_text(alloc, error),
    }
}

/// Says on standard error why an input was not read, standard input where it has no name.
pub(crate) fn tell_cause<R: AllocGlobal + Eprint>(
    rt: &R,
    name: Option<&str>,
    cause: Option<&io::Error>,
) {
    let input = name.unwrap_or("standard input");
    let _ = match unread_cause(rt.alloc(), name, cause) {
        Ok(cause) => eprintln!(rt; "oltctl: {input}: {cause}"),
        Err(AllocError) => eprintln!(rt; "oltctl: {input}: can't be read"),
    };
}

/// Says on standard error where the octets of a file, or of standard input, are no script for this, if they are none.
pub(crate) fn tell_mistake<R: AllocGlobal + Eprint>(
    rt: &R,
    name: Option<&str>,
    purpose: Purpose,
    octets: &[u8],
) {
    if let Ok(Some(place)) = placed_line(rt.alloc(), purpose, octets) {
        let _ = match name {
            Some(name) => eprintln!(rt; "oltctl: {name}: {place}"),
            None => eprintln!(rt; "oltctl: {place}"),
        };
    }
}
