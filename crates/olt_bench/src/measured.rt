//! What one part of the measurement came to: how many calls, a sum over their answers, and how long they took.

use gp_machine::{Answer, Reply};
use gp_ranging::Grant;
use std::io;
use std::rt::Clock;
use std::time::{Duration, Instant};

/// How many calls one part made, a sum over their answers without the carry out of 64 bits, and how long they took.
#[derive(Clone, Copy, Default, Drop)]
pub(crate) struct Measured {
    calls: u64,
    sum: u64,
    took: Duration,
}

impl Measured {
    /// Counts a call and adds its answer.
    pub(crate) fn count(&mut self, answer: u64) {
        self.calls = self.calls.wrapping_add(1);
        self.sum = self.sum.wrapping_add(answer);
    }

    /// Counts so many calls, and adds a sum over their answers.
    pub(crate) fn count_all(&mut self, calls: u64, answers: u64) {
        self.calls = self.calls.wrapping_add(calls);
        self.sum = self.sum.wrapping_add(answers);
    }

    /// Adds the time since the clock was read.
    pub(crate) fn add_time<R: Clock>(&mut self, rt: &R, begin: Instant) -> io::Result<()> {
        self.took = self.took.saturating_add(begin.elapsed(rt)?);
        Ok(())
    }

    /// Prints what the calls of a part came to and what is left in it, and on standard error how long they took.
    pub(crate) fn tell<R: Print + Eprint>(
        &self,
        rt: &R,
        part: &str,
        left: usize,
    ) -> io::Result<()> {
        let Measured { calls, sum, took } = *self;
        let micros = took.as_micros();
        println!(rt; "{part}, {left} left: {calls} calls, {sum}")?;
        eprintln!(rt; "{part}, {left} left: {calls} calls in {micros} microseconds")
    }
}

/// Makes a number of an answer: n + 1 for an ONU-ID n in it, 0 for none.
pub(crate) fn number_of(answer: &Answer) -> u64 {
    let onu = match (answer.reply, answer.grant) {
        (Reply::Found(onu) | Reply::Ranged { onu, .. } | Reply::Alive(onu), _) => Some(onu),
        (_, Some(Grant::Range(onu) | Grant::Poll(onu))) => Some(onu),
        _ => None,
    };
    onu.map_or(0, |onu| u64::from(onu) + 1)
}
