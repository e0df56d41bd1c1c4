//! What ends the answer to a line: an error where there is one, and, if that is told, that the line is done.
ghost use Rattle.std.specs.Prelude.{◌≡◌, ◌++◌, codes, decimal};
ghost use Rattle.gp_replay.specs.Writing.{HandsIn};
ghost use Rattle.gp_drive.specs.Drive.{done_if, done_line, ending, error_if, error_line, errors_of, fault_word};

use crate::fault::TurnFault;
use gp_stream::{Sink, WriteStopped};
use itoa::Buffer;
use std::io::Write;

/// Puts a text, and a number behind it.
pub(crate) fn put_numbered<W: Write>(
    sink: &mut Sink<W>,
    text: &[u8],
    number: u64,
) -> Result<(), WriteStopped>
    ensures { HandsIn sink.old sink.new (text.now ++ decimal number) result }
{
    let mut digits = Buffer::new();
    sink.put(text)?;
    sink.put(digits.format(number).as_bytes())
}

/// Puts a text, and a line feed behind it.
fn put_ended<W: Write>(sink: &mut Sink<W>, text: &[u8]) -> Result<(), WriteStopped>
    ensures { HandsIn sink.old sink.new (text.now ++ codes "\n") result }
{
    sink.put(text)?;
    sink.put(b"\n")
}

/// Puts the word for a fault, which ends an error line.
fn put_word<W: Write>(sink: &mut Sink<W>, fault: TurnFault) -> Result<(), WriteStopped>
    ensures { HandsIn sink.old sink.new (codes " " ++ fault_word fault ++ codes "\n") result }
{
    sink.put(b" ")?;
    put_ended(sink, fault.word().as_bytes())
}

/// Puts the error line of the line with this number.
fn put_error<W: Write>(sink: &mut Sink<W>, line: u64, fault: TurnFault) -> Result<(), WriteStopped>
    ensures { HandsIn sink.old sink.new (error_line line fault) result }
{
    put_numbered(sink, b"error ", line)?;
    put_word(sink, fault)
}

/// Puts the error line, where there is an error.
fn put_error_if<W: Write>(
    sink: &mut Sink<W>,
    line: u64,
    fault: Option<TurnFault>,
) -> Result<(), WriteStopped>
    ensures { HandsIn sink.old sink.new (error_if line fault) result }
{
    match fault {
        Some(fault) => put_error(sink, line, fault),
        None => Ok(()),
    }
}

/// Puts that the line with this number is done.
fn put_done<W: Write>(sink: &mut Sink<W>, line: u64) -> Result<(), WriteStopped>
    ensures { HandsIn sink.old sink.new (done_line line) result }
{
    put_numbered(sink, b"done ", line)?;
    sink.put(b"\n")
}

/// Puts it, if that is told.
fn put_done_if<W: Write>(sink: &mut Sink<W>, done: bool, line: u64) -> Result<(), WriteStopped>
    ensures { HandsIn sink.old sink.new (done_if done line) result }
{
    if done { put_done(sink, line) } else { Ok(()) }
}

/// Puts what ends the answer to the line with this number: an error where there is one, and, if that is told, that the
/// line is done. Takes no memory.
pub(crate) fn put_ending<W: Write>(
    sink: &mut Sink<W>,
    done: bool,
    line: u64,
    fault: Option<TurnFault>,
) -> Result<(), WriteStopped>
    ensures { HandsIn sink.old sink.new (ending done line fault) result }
{
    put_error_if(sink, line, fault)?;
    put_done_if(sink, done, line)
}

/// How many errors a line has.
pub(crate) fn errors_of(fault: Option<TurnFault>) -> u64
    ensures { result ≡ errors_of fault }
{
    match fault {
        Some(_) => 1,
        None => 0,
    }
}
