//! The jobs `verify` and `tell`: traces are recorded, and verified, some of them with one wrong octet; or told in words
//! and as JSON.

use crate::choices::Choices;
use crate::digest::Digest;
use crate::fault::JobFault;
use crate::serials::add_list;
use crate::soak::{Kind, script_of};
use gp_explain::{Form, Telling, explain_trace};
use gp_ploam::Mask;
use gp_replay::run_replay;
use gp_stream::{Sink, Source};
use gp_verify::{CheckFault, VerifyFault, verify_script};
use std::alloc::{AllocError, Global};

/// A fibre with units that operate, and one with many of them.
const KINDS: [Kind; 2] = [
    Kind {
        units: 64,
        losses: 200,
        spells: 8,
        frames: 8_000,
        dark: 1,
        quarantine: 800,
    },
    Kind {
        units: 200,
        losses: 200,
        spells: 6,
        frames: 10_000,
        dark: 40,
        quarantine: 0,
    },
];

/// How many ports at rest a chassis has, and how many serial numbers each admits.
const PORTS: u8 = 16;

const ADMITTED: u16 = 32;

/// Writes a script of ports at rest, which search now and then.
fn rest_of(alloc: Global, choices: &mut Choices) -> Result<String, AllocError> {
    let mut script = String::new(alloc);
    script.push_str("licences = 254\n")?;
    let lot = choices.below(256) as u8;
    for port in 0..PORTS {
        let period = choices.between(1_000, 3_000);
        write!(script, "[[port]]\nsearch_period = {period}\nadmit = ")?;
        add_list(alloc, &mut script, lot, port, ADMITTED)?;
        script.push_str("\n")?;
    }
    for _ in 0..20u32 {
        for port in 0..PORTS {
            let frames = choices.between(150, 250);
            write!(script, "[[event]]\nport = {port}\nframes = {frames}\n")?;
        }
    }
    Ok(script)
}

/// Writes the script of a part: one in three is of ports at rest.
fn script_for(alloc: Global, choices: &mut Choices, part: u32) -> Result<String, AllocError> {
    match part % 3 {
        0 => script_of(alloc, choices, KINDS[0]),
        1 => script_of(alloc, choices, KINDS[1]),
        _ => rest_of(alloc, choices),
    }
}

/// Records the trace of a script.
fn recorded(alloc: Global, script: &str) -> Result<Vec<u8>, JobFault> {
    let mut source = Source::new(script.as_bytes());
    let mut sink = Sink::new(alloc, Vec::new(alloc))?;
    match run_replay(alloc, &mut source, &mut sink) {
        Ok(()) => Ok(sink.into_inner()),
        Err(_) => Err(JobFault::Unexpected),
    }
}

/// Has one octet of a trace wrong, in its last eighth.
fn spoil(trace: &mut Vec<u8>, choices: &mut Choices) {
    let length = trace.len();
    let eighth = (length / 8).min(u32::MAX as usize) as u32;
    let place = length.saturating_sub(choices.between(1, eighth) as usize);
    if let Some(octet) = trace.get_mut(place) {
        *octet ^= 1;
    }
}

/// Makes a number of how a verification ended.
fn number_of(outcome: &Result<u64, CheckFault>) -> Option<u64> {
    match outcome {
        Ok(lines) => Some(*lines),
        Err(CheckFault::Trace(VerifyFault::Refused { line, verdict: _ })) => {
            Some(line.wrapping_mul(3))
        }
        Err(CheckFault::Trace(VerifyFault::Unended { line })) => Some(line.wrapping_mul(5)),
        Err(_) => None,
    }
}

/// Records the trace of a part's script and verifies it, and adds what that came to. One trace in four is wrong.
pub(crate) fn verify(
    alloc: Global,
    part: u32,
    seed: u32,
    digest: Digest,
) -> Result<Digest, JobFault> {
    let mut choices = Choices::new(seed, part);
    let script = script_for(alloc, &mut choices, part)?;
    let mut trace = recorded(alloc, script.as_str())?;
    if part % 4 == 3 {
        spoil(&mut trace, &mut choices);
    }
    let mut source = Source::new(script.as_bytes());
    let mut lines = Source::endless(trace.as_slice());
    let mut sink = Sink::new(alloc, digest)?;
    let outcome = verify_script(alloc, &mut source, &mut lines, &mut sink);
    let Some(number) = number_of(&outcome) else {
        return Err(JobFault::Unexpected);
    };
    let mut digest = sink.into_inner();
    digest.add(number);
    Ok(digest)
}

/// Tells a trace in this form, with its times, and adds what was told.
fn explain(alloc: Global, trace: &[u8], form: Form, digest: Digest) -> Result<Digest, JobFault> {
    let telling = Telling::new(alloc, Mask::Plain, form, true);
    let mut source = Source::endless(trace);
    let mut sink = Sink::new(alloc, digest)?;
    match explain_trace(alloc, telling, &mut source, &mut sink) {
        Ok(lines) => {
            let mut digest = sink.into_inner();
            digest.add(lines);
            Ok(digest)
        }
        Err(_) => Err(JobFault::Unexpected),
    }
}

/// Records the trace of a part's script, has it told in words or as JSON, and adds what was told.
pub(crate) fn tell(
    alloc: Global,
    part: u32,
    seed: u32,
    digest: Digest,
) -> Result<Digest, JobFault> {
    let mut choices = Choices::new(seed, part);
    let script = script_for(alloc, &mut choices, part)?;
    let trace = recorded(alloc, script.as_str())?;
    let form = if part / 3 % 2 == 0 {
        Form::Words
    } else {
        Form::Json
    };
    explain(alloc, trace.as_slice(), form, digest)
}
