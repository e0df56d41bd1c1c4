//! What is played or driven is told in words and as JSON, with its times and without.
ghost use Rattle.std.specs.Prelude.{◌≡◌, None};

use crate::bench::Bench;
use crate::choices::Choices;
use crate::digest::Digest;
use crate::fault::JobFault;
use crate::fibre::Fibre;
use crate::{bench, fibre, picks};
use gp_drive::run_drive;
use gp_explain::{Form, Telling};
use gp_ploam::Mask;
use gp_replay::run_replay;
use gp_stream::{Sink, Source};
use gp_tell::{Began, Teller};
use std::alloc::Global;
use std::io;
use std::io::Read;
use std::marker::Brand;

/// A reader that gives one octet a read.
#[derive(Drop)]
struct OctetReader<'a> {
    rest: &'a [u8],
}

impl Read for OctetReader<'_> {
    fn read(&mut self, buffer: &mut [u8]) -> io::Result<usize> {
        let count = self.rest.len().min(buffer.len()).min(1);
        let (octet, rest) = self.rest.split_at(count);
        buffer[..count].copy_from_slice(octet);
        self.rest = rest;
        Ok(count)
    }
}

/// Ends a teller that told all that was wanted, and gives the digest below it.
fn end<B: Began>(teller: Teller<B, Digest>) -> Result<Digest, JobFault> {
    match teller.fault() {
        Some(_) => Err(JobFault::Unexpected),
        None => Ok(teller.into_inner()),
    }
}

/// Plays a script, and adds its trace as it is told.
fn replay_by<B: Began>(
    alloc: Global,
    script: &[u8],
    telling: Telling,
    digest: Digest,
) -> Result<Digest, JobFault>
    requires manner { telling ≡ B.manner }
    requires held { B.held ≡ None }
{
    let teller = Teller::<B, Digest>::new(alloc, telling, digest)?;
    let mut sink = Sink::new(alloc, teller)?;
    let mut source = Source::new(script);
    match run_replay(alloc, &mut source, &mut sink) {
        Ok(()) => end(sink.into_inner()),
        Err(_) => Err(JobFault::Unexpected),
    }
}

/// Opens a script and answers lines, and adds the answers as they are told.
fn drive_by<B: Began, T: Read>(
    alloc: Global,
    script: &[u8],
    turns: &mut Source<T>,
    telling: Telling,
    digest: Digest,
) -> Result<Digest, JobFault>
    requires manner { telling ≡ B.manner }
    requires held { B.held ≡ None }
{
    let teller = Teller::<B, Digest>::new(alloc, telling, digest)?;
    let mut sink = Sink::new(alloc, teller)?;
    let mut source = Source::new(script);
    match run_drive(alloc, &mut source, turns, &mut sink) {
        Ok(_) => end(sink.into_inner()),
        Err(_) => Err(JobFault::Unexpected),
    }
}

/// Opens a script and answers lines that a reader gives, and adds the answers as they are told.
fn drive_told<T: Read + Drop>(
    alloc: Global,
    script: &[u8],
    turns: T,
    telling: Telling,
    digest: Digest,
) -> Result<Digest, JobFault> {
    let mut turns = Source::endless(turns);
    drive_by::<Brand, T>(alloc, script, &mut turns, telling, digest)
}

/// Plays the script of a fibre, and tells its trace.
fn play_fibre(
    alloc: Global,
    choices: &mut Choices,
    fibre: Fibre,
    telling: Telling,
    digest: Digest,
) -> Result<Digest, JobFault> {
    let spells = if fibre.units > 254 { 8 } else { 24 };
    let script = fibre::script_of(alloc, choices, fibre, spells)?;
    replay_by::<Brand>(alloc, script.as_bytes(), telling, digest)
}

/// Answers lines for a fibre, and tells the answers.
fn drive_fibre(
    alloc: Global,
    choices: &mut Choices,
    fibre: Fibre,
    telling: Telling,
    digest: Digest,
) -> Result<Digest, JobFault> {
    let script = fibre::script_of(alloc, choices, fibre, 0)?;
    let lines = fibre::lines_of(alloc, choices, fibre)?;
    drive_told(alloc, script.as_bytes(), lines.as_bytes(), telling, digest)
}

/// Answers what a bench sends, octet by octet, and tells the answers.
fn drive_bench(
    alloc: Global,
    choices: &mut Choices,
    bench: Bench,
    telling: Telling,
    digest: Digest,
) -> Result<Digest, JobFault> {
    let script = bench::opening(alloc, bench)?;
    let lines = bench::lines_of(alloc, choices, bench, 3)?;
    let rest = lines.as_bytes();
    drive_told(
        alloc,
        script.as_bytes(),
        OctetReader { rest },
        telling,
        digest,
    )
}

/// Gives the form of a part, and whether its times are told.
fn form_of(part: u32) -> (Form, bool) {
    match part / 4 % 4 {
        0 => (Form::Words, false),
        1 => (Form::Json, true),
        2 => (Form::Words, true),
        _ => (Form::Json, false),
    }
}

/// Does a part, and adds what was told: a fibre that is played, one that is driven, a bench, or a trace that is
/// verified.
pub(crate) fn tell(
    alloc: Global,
    part: u32,
    seed: u32,
    digest: Digest,
) -> Result<Digest, JobFault> {
    let mut choices = Choices::new(seed, part);
    let lot = choices.below(256) as u8;
    let mask = if part / 8 % 2 == 0 {
        Mask::Plain
    } else {
        Mask::Coset
    };
    let units = if part / 4 % 2 == 0 { 254 } else { 1_024 };
    let fibre = Fibre { lot, units, mask };
    let (form, timed) = form_of(part);
    let telling = Telling::new(alloc, mask, form, timed);
    match part % 4 {
        0 => play_fibre(alloc, &mut choices, fibre, telling, digest),
        1 => drive_fibre(alloc, &mut choices, fibre, telling, digest),
        2 => drive_bench(alloc, &mut choices, Bench { lot, mask }, telling, digest),
        _ => picks::verify(alloc, &mut choices, mask, digest),
    }
}
