//! `olt_more JOB PARTS SEED`: does jobs of a line terminal that `olt_jobs` leaves out, with inputs that it makes
//! itself, and prints a digest of every octet that was written and of every field that was answered. Each seed gives
//! other inputs of the same kinds and sizes, and the same digest on every run.
//!
//! Jobs: `ports`, `storm`, `codes`, `told`, `audit`. Each has PARTS parts, one after the other, of kinds that take
//! turns. `each` does the first part of each job, then the second of each, and so on.
//!
//! - `ports.rt`: sixteen ports in a program of its own, all of whose pieces and images are read.
//! - `storm.rt`: storms of one to sixteen ports, by threads.
//! - `decoding.rt`: codes that are decoded, and words that are encoded; `octets.rt`: the octets of those codes.
//! - `told.rt`: what is played or driven is told in words and as JSON; `fibre.rt`, `bench.rt`: the scripts and lines.
//! - `audit.rt`: logs that are audited.
//! - `picks.rt`: traces in which any free number is picked, verified.
//! - `traffic.rt`: what goes on at ports, whoever serves it; `units.rt`: the units of a port.
//! - `fields.rt`, `images.rt`: digests of entries, and of images and pieces.
//! - `choices.rt`: numbers that the seed decides. `serials.rt`, `codes.rt`: the units' serial numbers and bursts.
//! - `digest.rt`: a writer that keeps a digest. `fault.rt`: why a job stopped early.
#![tactic(auto)]

mod audit;
mod bench;
mod choices;
mod codes;
mod decoding;
mod digest;
mod fault;
mod fibre;
mod fields;
mod images;
mod octets;
mod picks;
mod ports;
mod serials;
mod storm;
mod told;
mod traffic;
mod units;

use digest::Digest;
use fault::JobFault;
use std::alloc::Global;
use std::io;
use std::process::ExitCode;
use std::rt::Env;
use std::sync::Wait;
use std::thread::Threads;

const USAGE: &str =
    "usage: olt_more ports|storm|codes|told|audit|each PARTS SEED, numbers up to 4294967295";

/// Which job is asked for.
#[derive(Clone, Copy)]
enum Job {
    Ports,
    Storm,
    Codes,
    Told,
    Audit,
    Each,
}

/// What a command line asks for.
#[derive(Clone, Copy)]
struct Request {
    job: Job,
    parts: u32,
    seed: u32,
}

/// Gives the job that a word names.
fn job_of(word: &str) -> Option<Job> {
    match word {
        "ports" => Some(Job::Ports),
        "storm" => Some(Job::Storm),
        "codes" => Some(Job::Codes),
        "told" => Some(Job::Told),
        "audit" => Some(Job::Audit),
        "each" => Some(Job::Each),
        _ => None,
    }
}

/// Reads the words behind the program's name.
fn request_of<R: Env + AllocGlobal>(rt: &R) -> io::Result<Option<Request>> {
    let mut words = std::env::args(rt)?;
    let _program = words.next();
    let Some(job) = words.next().and_then(|word| job_of(word.as_str())) else {
        return Ok(None);
    };
    let Some(parts) = words.next().and_then(|word| word.parse().ok()) else {
        return Ok(None);
    };
    let Some(seed) = words.next().and_then(|word| word.parse().ok()) else {
        return Ok(None);
    };
    Ok(Some(Request { job, parts, seed }))
}

/// Gives the job that a part of `each` is of.
fn job_at(part: u32) -> Job {
    match part % 4 {
        0 => Job::Ports,
        1 => Job::Storm,
        2 => Job::Codes,
        _ => Job::Told,
    }
}

/// Does one part of a job.
fn do_part<R: AllocGlobal + Threads + Wait + Sync>(
    rt: &R,
    job: Job,
    part: u32,
    seed: u32,
    digest: Digest,
) -> Result<Digest, JobFault> {
    let alloc: Global = rt.alloc();
    let (job, part) = match job {
        Job::Each => (job_at(part), part / 4),
        _ => (job, part),
    };
    match job {
        Job::Ports => ports::serve(alloc, part, seed, digest),
        Job::Storm => storm::run(rt, part, seed, digest),
        Job::Codes => decoding::decode(alloc, part, seed, digest),
        Job::Audit => audit::audit(alloc, part, seed, digest),
        Job::Told | Job::Each => told::tell(alloc, part, seed, digest),
    }
}

/// Does a job, and gives the digest of what came out of it.
fn do_job<R: AllocGlobal + Threads + Wait + Sync>(
    rt: &R,
    request: Request,
) -> Result<Digest, JobFault> {
    let mut digest = Digest::new(rt.alloc());
    for part in 0..request.parts {
        digest = do_part(rt, request.job, part, request.seed, digest)?;
    }
    Ok(digest)
}

/// Runs the command line.
fn run<R: Env + AllocGlobal + Print + Eprint + Threads + Wait + Sync>(
    rt: &R,
) -> io::Result<ExitCode> {
    let Some(request) = request_of(rt)? else {
        eprintln!(rt; "{USAGE}")?;
        return Ok(ExitCode::FAILURE);
    };
    match do_job(rt, request) {
        Ok(digest) => {
            let octets = digest.octets();
            let value = digest.value();
            println!(rt; "{octets} octets, {value:016x}")?;
            Ok(ExitCode::SUCCESS)
        }
        Err(fault) => {
            eprintln!(rt; "olt_more: {fault}")?;
            Ok(ExitCode::FAILURE)
        }
    }
}

fn main(rt: HostRuntime) -> ExitCode {
    match run(&rt) {
        Ok(status) => status,
        Err(error) => {
            let _ = eprintln!(&rt; "olt_more: {error}");
            ExitCode::FAILURE
        }
    }
}
