//! What a chassis is opened with, and whether it is within its limits: up to sixteen ports, with no serial number
//! admitted twice.
ghost use Rattle.std.specs.Prelude.{◌≡◌, ◌↔◌, IsTrue};
ghost use Rattle.gp_chassis.specs.Limits.{IsWithin};

use crate::admitted_once::admits_each_once;
use gp_licence::MAX_LICENCES;
use gp_machine::{MAX_JOURNAL_LIMIT, MAX_PORTS, PortConfig};
use std::alloc::Global;

/// What a chassis is opened with.
#[derive(Drop)]
pub struct ChassisConfig {
    /// How many licences there are, each for one active unit on any port, at most 4064.
    pub licences: u32,
    /// How many entries the journal of each port keeps at most, 1 to 1,000,000.
    pub journal_limit: u32,
    /// The configurations of 1 to 16 ports. A serial number is admitted on one of them at most.
    pub ports: Vec<PortConfig>,
}

impl ChassisConfig {
    /// Tells whether each number is in its range, and no serial number is admitted twice, on one port or on two.
    /// Memory is taken for a list of the serial numbers; without it the answer takes longer.
    pub fn is_within(&self, alloc: Global) -> bool
        ensures { IsTrue result ↔ IsWithin self.now }
    {
        self.licences <= MAX_LICENCES
            && self.journal_limit > 0
            && self.journal_limit <= MAX_JOURNAL_LIMIT
            && !self.ports.is_empty()
            && self.ports.len() <= usize::from(MAX_PORTS)
            && self.ports.iter().all(|port| port.is_within_limits())
            && admits_each_once(alloc, self.ports.as_slice())
    }
}
