//! By what tests look at a chassis while it runs; a program opens one with `NoGate`, which does nothing.

use gp_port::PortCore;
use std::sync::Wait;
use std::sync::ledger::Ledger;

/// Looks at a chassis while it runs, for tests.
pub trait Gate<L: Ledger>: Drop {
    /// Is called with a port whose lock is held, before the port's step.
    fn inside<R: Wait>(&self, rt: &R, port: u8, core: &PortCore<L>);

    /// Is called once that port's lock is free again.
    fn answered(&self, port: u8);
}

/// A gate that does nothing.
#[derive(Drop)]
pub struct NoGate;

impl<L: Ledger> Gate<L> for NoGate {
    fn inside<R: Wait>(&self, _rt: &R, _port: u8, _core: &PortCore<L>) {}

    fn answered(&self, _port: u8) {}
}
