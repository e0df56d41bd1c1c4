//! `olt_jobs JOB PARTS SEED`: does one of the jobs that users of a line terminal wait for, with inputs that it makes
//! itself, and prints a digest of all that came out of it. Each seed gives other inputs of the same kinds and sizes,
//! and the same digest on every run.
//!
//! Jobs: `soak`, `verify`, `drive`, `tell`, `scripts`, `engine`. Each has PARTS parts, one after the other, of kinds
//! that take turns. `each` does one part of each job in turn.
//!
//! - `soak.rt`: scripts with simulated units whose light comes and goes, played for hours of fibre time.
//! - `traces.rt`: traces that are recorded, and then verified (`verify`), or told in words and as JSON (`tell`).
//! - `bench.rt`: what a test bench sends on its ports; `driving.rt`: those lines, answered.
//! - `scripts.rt`: folders of scripts, each checked and played.
//! - `engine.rt`: sixteen ports in a program of its own, whose units answer each grant; `windows.rt`: the units of a
//!   port, and what a rogue sends.
//! - `choices.rt`: numbers that the seed decides. `serials.rt`, `codes.rt`: the units' serial numbers and bursts.
//! - `digest.rt`: a writer that keeps a digest. `fault.rt`: why a job stopped early.
#![tactic(auto)]

mod bench;
mod choices;
mod codes;
mod digest;
mod driving;
mod engine;
mod fault;
mod scripts;
mod serials;
mod soak;
mod traces;
mod windows;

use digest::Digest;
use fault::JobFault;
use std::alloc::Global;
use std::io;
use std::process::ExitCode;
use std::rt::Env;

const USAGE: &str =
    "usage: olt_jobs soak|verify|drive|tell|scripts|engine|each PARTS SEED, numbers up to 4294967295";

/// Which job is asked for.
#[derive(Clone, Copy)]
enum Job {
    Soak,
    Verify,
    Drive,
    Tell,
    Scripts,
    Engine,
    Each,
}

/// What a command line asks for.
#[derive(Clone, Copy)]
struct Request {
    job: Job,
    parts: u32,
    seed: u32,
}

/// Gives the job that a word names.
fn job_of(word: &str) -> Option<Job> {
    match word {
        "soak" => Some(Job::Soak),
        "verify" => Some(Job::Verify),
        "drive" => Some(Job::Drive),
        "tell" => Some(Job::Tell),
        "scripts" => Some(Job::Scripts),
        "engine" => Some(Job::Engine),
        "each" => Some(Job::Each),
        _ => None,
    }
}

/// Reads the words behind the program's name.
fn request_of<R: Env + AllocGlobal>(rt: &R) -> io::Result<Option<Request>> {
    let mut words = std::env::args(rt)?;
    let _program = words.next();
    let Some(job) = words.next().and_then(|word| job_of(word.as_str())) else {
        return Ok(None);
    };
    let Some(parts) = words.next().and_then(|word| word.parse().ok()) else {
        return Ok(None);
    };
    let Some(seed) = words.next().and_then(|word| word.parse().ok()) else {
        return Ok(None);
    };
    Ok(Some(Request { job, parts, seed }))
}

/// Gives the job that a part of `each` is of.
fn job_at(part: u32) -> Job {
    match part % 6 {
        0 => Job::Soak,
        1 => Job::Verify,
        2 => Job::Drive,
        3 => Job::Tell,
        4 => Job::Scripts,
        _ => Job::Engine,
    }
}

/// Does one part of a job.
fn do_part(
    alloc: Global,
    job: Job,
    part: u32,
    seed: u32,
    digest: Digest,
) -> Result<Digest, JobFault> {
    let job = match job {
        Job::Each => job_at(part),
        _ => job,
    };
    match job {
        Job::Soak => soak::play(alloc, part, seed, digest),
        Job::Verify => traces::verify(alloc, part, seed, digest),
        Job::Drive => driving::drive(alloc, part, seed, digest),
        Job::Tell => traces::tell(alloc, part, seed, digest),
        Job::Scripts => scripts::check(alloc, part, seed, digest),
        Job::Engine | Job::Each => engine::serve(alloc, part, seed, digest),
    }
}

/// Does a job, and gives the digest of what came out of it.
fn do_job(alloc: Global, request: Request) -> Result<Digest, JobFault> {
    let mut digest = Digest::new(alloc);
    for part in 0..request.parts {
        digest = do_part(alloc, request.job, part, request.seed, digest)?;
    }
    Ok(digest)
}

/// Runs the command line.
fn run<R: Env + AllocGlobal + Print + Eprint>(rt: &R) -> io::Result<ExitCode> {
    let Some(request) = request_of(rt)? else {
        eprintln!(rt; "{USAGE}")?;
        return Ok(ExitCode::FAILURE);
    };
    match do_job(rt.alloc(), request) {
        Ok(digest) => {
            let octets = digest.octets();
            let value = digest.value();
            println!(rt; "{octets} octets, {value:016x}")?;
            Ok(ExitCode::SUCCESS)
        }
        Err(fault) => {
            eprintln!(rt; "olt_jobs: {fault}")?;
            Ok(ExitCode::FAILURE)
        }
    }
}

fn main(rt: HostRuntime) -> ExitCode {
    match run(&rt) {
        Ok(status) => status,
        Err(error) => {
            let _ = eprintln!(&rt; "olt_jobs: {error}");
            ExitCode::FAILURE
        }
    }
}
