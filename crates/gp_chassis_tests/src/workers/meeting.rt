//! A gate that shows whether two ports are served at once.
use gp_port::PortCore;
use gp_workers::Gate;
use std::sync::Wait;
use std::sync::atomic::{AtomicU64, Ordering};
use std::sync::ledger::Ledger;
use std::thread;
use std::time::{Clock, Duration};

/// How many times a thread looks for what it waits for, a millisecond apart.
const TURNS: u16 = 10_000;

/// The lock is to be kept when the port is served next.
pub(super) const ARMED: u64 = 1;
/// The lock is kept.
pub(super) const INSIDE: u64 = 2;
/// The other port has answered.
const ANSWERED: u64 = 3;
/// It did so while the lock was kept.
pub(super) const MET: u64 = 4;

/// Notes how many copies are owed on one port, whose lock is held; once it is armed, it also keeps that lock until
/// another port has answered, or for `TURNS` turns.
#[derive(Drop)]
pub(super) struct Meeting<C: Clock> {
    pub(super) clock: C,
    pub(super) kept: u8,
    pub(super) awaited: u8,
    pub(super) owed: AtomicU64,
    pub(super) stage: AtomicU64,
}

impl<C: Clock> Meeting<C> {
    /// Goes from one stage to the next, if it is there.
    fn pass(&self, from: u64, to: u64) {
        if self.stage.load(Ordering::SeqCst) == from {
            self.stage.store(to, Ordering::SeqCst);
        }
    }

    /// Waits for a stage, or for `TURNS` turns.
    pub(super) fn wait_for(&self, stage: u64) {
        for _ in 0..TURNS {
            if self.stage.load(Ordering::SeqCst) == stage {
                return;
            }
            thread::sleep(&self.clock, Duration::from_millis(1));
        }
    }
}

/// The gate of a chassis whose test looks at the meeting itself.
#[derive(Drop)]
pub(super) struct Meets<'a, C: Clock>(pub(super) &'a Meeting<C>);

impl<C: Clock + Drop, L: Ledger> Gate<L> for Meets<'_, C> {
    fn inside<R: Wait>(&self, _rt: &R, port: u8, core: &PortCore<L>) {
        if port != self.0.kept {
            return;
        }
        self.0.owed.store(core.owed() as u64, Ordering::SeqCst);
        if self.0.stage.load(Ordering::SeqCst) == ARMED {
            self.0.stage.store(INSIDE, Ordering::SeqCst);
            self.0.wait_for(ANSWERED);
            self.0.pass(ANSWERED, MET);
        }
    }

    fn answered(&self, port: u8) {
        if port == self.0.awaited {
            self.0.pass(INSIDE, ANSWERED);
        }
    }
}
