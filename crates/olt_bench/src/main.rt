//! `olt_bench ROUNDS`: makes messages, and the steps of a port, of a chassis and of a world, many times over. What
//! they answered goes to standard output, the same on every run; how long they took goes to standard error. What is
//! made ready beforehand is not in that time.
//!
//! `codec.rt` has the codes of messages. `port.rt` has a port with licences and what is measured of it, `units.rt`
//! what its units send. `chassis.rt` has a port in a chassis, with its journal, `threads.rt` the ports of a chassis
//! that threads share, and `world.rt` a port with its simulated units on a fibre. `config.rt` is what they are opened
//! with, `measured.rt` what is told of each part.
#![tactic(auto)]

mod chassis;
mod codec;
mod config;
mod measured;
mod port;
mod threads;
mod units;
mod world;

use gp_licence::MAX_LICENCES;
use std::io;
use std::marker::Brand;
use std::process::ExitCode;
use std::rt::{Clock, Env};
use std::sync::Wait;
use std::sync::ledger::Blank;
use std::thread::Threads;

/// Reads the rounds that the first word of the command line names. None where there is none, or it is no number.
fn rounds_of<R: Env + AllocGlobal>(rt: &R) -> io::Result<Option<u32>> {
    let mut words = std::env::args(rt)?;
    let _program = words.next();
    Ok(words.next().and_then(|word| word.parse().ok()))
}

/// Measures so many rounds of each part.
fn run<R: Env + AllocGlobal + Print + Eprint + Clock + Threads + Wait + Sync>(
    rt: &R,
) -> io::Result<ExitCode> {
    let Some(rounds) = rounds_of(rt)? else {
        eprintln!(rt; "usage: olt_bench ROUNDS, a number up to 4294967295")?;
        return Ok(ExitCode::FAILURE);
    };
    codec::measure_codec(rt, rounds)?;
    let blank = Blank::new(u64::from(MAX_LICENCES));
    port::measure::<Brand, R>(rt, blank, rounds)?;
    let blank = Blank::new(u64::from(MAX_LICENCES));
    chassis::measure_chassis::<Brand, R>(rt, blank, rounds)?;
    threads::measure_threads(rt, rounds)?;
    world::measure_worlds(rt, rounds)?;
    Ok(ExitCode::SUCCESS)
}

fn main(rt: HostRuntime) -> ExitCode {
    match run(&rt) {
        Ok(status) => status,
        Err(error) => {
            let _ = eprintln!(&rt; "olt_bench: {error}");
            ExitCode::FAILURE
        }
    }
}
