//! The job `drive`: the lines of `bench.rt` are answered, some read one by one, some by a port with simulated units.

use crate::bench::{opening, turns_of};
use crate::choices::Choices;
use crate::digest::Digest;
use crate::fault::JobFault;
use crate::soak::{Kind, script_of};
use gp_drive::run_drive;
use gp_stream::{Sink, Source};
use std::alloc::{AllocError, Global};
use std::io;
use std::io::Read;

/// How often each unit is polled in a part.
const CYCLES: u32 = 250;

/// How many lines are sent to a port with simulated units.
const FIBRE_LINES: u32 = 40_000;

/// What the port with simulated units begins with.
const FIBRE: Kind = Kind {
    units: 64,
    losses: 200,
    spells: 1,
    frames: 4_000,
    dark: 1,
    quarantine: 800,
};

/// A reader that gives one line a read.
#[derive(Drop)]
struct LineReader<'a> {
    rest: &'a [u8],
}

impl Read for LineReader<'_> {
    fn read(&mut self, buffer: &mut [u8]) -> io::Result<usize> {
        let end = self.rest.iter().position(|octet| *octet == b'\n');
        let length = end.map_or(self.rest.len(), |end| end.saturating_add(1));
        let count = length.min(buffer.len()).min(self.rest.len());
        let (line, rest) = self.rest.split_at(count);
        buffer[..count].copy_from_slice(line);
        self.rest = rest;
        Ok(count)
    }
}

/// Writes what is sent to a port with simulated units: frames, a rogue's bursts, units that go dark and come back.
fn fibre_turns(alloc: Global, choices: &mut Choices) -> Result<String, AllocError> {
    let mut turns = String::new(alloc);
    for _ in 0..FIBRE_LINES {
        match choices.below(64) {
            0 => {
                let unit = choices.below(u32::from(FIBRE.units));
                let light = if choices.is_once_in(3) {
                    "dark"
                } else {
                    "light"
                };
                write!(turns, "unit {unit} {light}\n")?
            }
            1 => {
                let frames = choices.between(2, 60);
                write!(turns, "0 frame {frames}\n")?
            }
            2..=7 => turns.push_str("0 burst 90000 0004000000000000000000007c\n")?,
            8 => turns.push_str("0 search\n")?,
            _ => turns.push_str("0 frame\n")?,
        }
    }
    Ok(turns)
}

/// Opens a script, and answers lines by it.
fn answer<T: Read>(
    alloc: Global,
    script: &str,
    turns: &mut Source<T>,
    digest: Digest,
) -> Result<Digest, JobFault> {
    let mut source = Source::new(script.as_bytes());
    let mut sink = Sink::new(alloc, digest)?;
    match run_drive(alloc, &mut source, turns, &mut sink) {
        Ok(driven) => {
            let mut digest = sink.into_inner();
            digest.add(driven.lines);
            digest.add(driven.errors);
            Ok(digest)
        }
        Err(_) => Err(JobFault::Unexpected),
    }
}

/// Answers what a bench sends in a part, and adds the answers. One part in four comes one line a read, and one in four
/// is sent to a port with simulated units.
pub(crate) fn drive(
    alloc: Global,
    part: u32,
    seed: u32,
    digest: Digest,
) -> Result<Digest, JobFault> {
    let mut choices = Choices::new(seed, part);
    if part % 4 == 3 {
        let script = script_of(alloc, &mut choices, FIBRE)?;
        let turns = fibre_turns(alloc, &mut choices)?;
        let mut turns = Source::endless(turns.as_bytes());
        return answer(alloc, script.as_str(), &mut turns, digest);
    }
    let lot = choices.below(256) as u8;
    let script = opening(alloc, lot)?;
    let turns = turns_of(alloc, &mut choices, lot, CYCLES)?;
    if part % 4 == 2 {
        let rest = turns.as_bytes();
        let mut turns = Source::endless(LineReader { rest });
        return answer(alloc, script.as_str(), &mut turns, digest);
    }
    let mut turns = Source::endless(turns.as_bytes());
    answer(alloc, script.as_str(), &mut turns, digest)
}
