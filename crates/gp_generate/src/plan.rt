//! What script is asked for, and whether there is such a one.
ghost use Rattle.std.specs.Prelude.{◌≡◌, ◌≤◌, IfErr, IfOk, None, Some};
ghost use Rattle.gp_machine.specs.Config.{max_ports};
ghost use Rattle.gp_generate.specs.Plan as spec;

use gp_machine::MAX_PORTS;
use gp_ploam::Mask;
use std::marker::Model;
use thiserror::Error;

/// How many simulated units.
const MAX_UNITS: u64 = 1024;
/// How many events.
const MAX_EVENTS: u64 = 10_000;
/// How many mistakes.
const MAX_MISTAKES: u64 = 100;

/// How many units a port admits, where there are no simulated ones.
const UNITS_OF_A_PORT: u16 = 3;
/// How many of the simulated units are admitted at most.
const MOST_ADMITTED: u16 = 400;

/// What script is asked for.
#[derive(Clone, Copy, Debug, PartialEq, Eq)]
pub struct Wish {
    /// Where chance begins.
    pub seed: u64,
    /// How many ports, 1 to 16; 1 beside simulated units.
    pub ports: u64,
    /// How many simulated units, at most 1,024.
    pub units: u64,
    /// How many events, at most 10,000.
    pub events: u64,
    /// How many mistakes, at most 100, and no more than events.
    pub mistakes: u64,
}

/// What is asked for, where it is said; each has a default.
#[derive(Clone, Copy, Debug, PartialEq, Eq)]
pub struct Asked {
    /// Where chance begins; at 0 where it is left out.
    pub seed: Option<u64>,
    /// How many ports; 2, or 1 beside units.
    pub ports: Option<u64>,
    /// How many simulated units; none.
    pub units: Option<u64>,
    /// How many events; 200.
    pub events: Option<u64>,
    /// How many mistakes; none.
    pub mistakes: Option<u64>,
}

impl Asked {
    /// Gives what is asked for, with the defaults.
    pub fn wish(&self) -> Wish
        ensures { result ≡ spec.wish_of self.now }
    {
        let units = self.units.unwrap_or(0);
        let ports = self.ports.unwrap_or(if units == 0 { 2 } else { 1 });
        Wish {
            seed: self.seed.unwrap_or(0),
            ports,
            units,
            events: self.events.unwrap_or(200),
            mistakes: self.mistakes.unwrap_or(0),
        }
    }
}

/// Why there is no such script. Each is printed behind the name of what is asked for.
#[derive(Clone, Copy, Debug, PartialEq, Eq, Error)]
pub enum PlanFault {
    #[error("ports: 1 to 16 are wanted")]
    Ports,
    #[error("units: at most 1024 are wanted")]
    Units,
    #[error("units: one port is wanted beside units")]
    UnitsBesidePorts,
    #[error("events: at most 10000 are wanted")]
    Events,
    #[error("mistakes: at most 100 are wanted, and no more than events")]
    Mistakes,
}

/// A script that there can be. Contracts see what is asked for.
#[derive(Drop)]
pub struct Plan {
    wish: Wish,
}

impl Model for Plan {
    ghost use Rattle.gp_generate.specs.Plan.{IsPlan};
    ghost use Rattle.gp_generate.specs.declared.plan.Wish.{Wish};

    ghost Value = { Wish };

    ghost view = { λ p. p.wish };

    ghost invariant = { λ p. IsPlan p.wish };
}

/// Finds what is wrong with a wish, if anything is.
fn fault_of(wish: &Wish) -> Option<PlanFault>
    ensures value { result ≡ spec.fault_of wish.now }
    ensures plan { result ≡ None → spec.IsPlan wish.now }
{
    if wish.ports == 0 || wish.ports > u64::from(MAX_PORTS) {
        Some(PlanFault::Ports)
    } else if wish.units > MAX_UNITS {
        Some(PlanFault::Units)
    } else if wish.units > 0 && wish.ports > 1 {
        Some(PlanFault::UnitsBesidePorts)
    } else if wish.events > MAX_EVENTS {
        Some(PlanFault::Events)
    } else if wish.mistakes > MAX_MISTAKES || wish.mistakes > wish.events {
        Some(PlanFault::Mistakes)
    } else {
        None
    }
}

impl Plan {
    /// Makes a plan of what is asked for, or tells why there is no such script.
    pub fn new(wish: Wish) -> Result<Plan, PlanFault>
        ensures ok { IfOk result (λ plan. (plan ≡ wish) × (spec.fault_of wish ≡ None)) }
        ensures err { IfErr result (λ fault. spec.fault_of wish ≡ Some fault) }
    {
        match fault_of(&wish) {
            Some(fault) => Err(fault),
            None => Ok(Plan { wish }),
        }
    }

    /// Gives where chance begins.
    pub(crate) fn seed(&self) -> u64
        ensures { result ≡ self.now.seed }
    {
        self.wish.seed
    }

    /// Gives how many ports there are.
    pub(crate) fn ports(&self) -> u8
        ensures value { result ≡ self.now.ports }
        ensures some { 1 ≤ result }
        ensures few { result ≤ max_ports }
    {
        self.wish.ports as u8
    }

    /// Gives how many simulated units there are.
    pub(crate) fn units(&self) -> u16
        ensures value { result ≡ self.now.units }
        ensures few { result ≤ 1024 }
    {
        self.wish.units as u16
    }

    /// Gives how many events there are.
    pub(crate) fn events(&self) -> u32
        ensures value { result ≡ self.now.events }
        ensures few { result ≤ 10000 }
    {
        self.wish.events as u32
    }

    /// Gives how many mistakes there are.
    pub(crate) fn mistakes(&self) -> u32
        ensures value { result ≡ self.now.mistakes }
        ensures few { result ≤ 100 }
        ensures within { result ≤ self.now.events }
    {
        self.wish.mistakes as u32
    }

    /// Gives how many units bursts and commands are about: on a port three, or all that are simulated.
    pub(crate) fn cast_units(&self) -> u16
        ensures value { result ≡ spec.cast_units self.now }
        ensures some { 1 ≤ result }
        ensures few { result ≤ 1024 }
    {
        if self.wish.units == 0 {
            UNITS_OF_A_PORT
        } else {
            self.units()
        }
    }

    /// Gives how many of them are admitted.
    pub(crate) fn admitted(&self) -> u16
        ensures value { result ≡ spec.admitted self.now }
        ensures some { 1 ≤ result }
        ensures few { result ≤ 400 }
    {
        self.cast_units().min(MOST_ADMITTED)
    }

    /// Gives the mask of the script: of one seed in four the other one.
    pub(crate) fn mask(&self) -> Mask
        ensures { result ≡ spec.mask_of self.now }
    {
        if self.wish.seed % 4 == 3 {
            Mask::Coset
        } else {
            Mask::Plain
        }
    }

    /// Gives how many search windows a search of a port has.
    pub(crate) fn cycles(&self, port: u8) -> u8
        ensures value { result ≡ spec.cycles_of self.now port }
        ensures some { 1 ≤ result }
        ensures few { result ≤ 3 }
    {
        ((self.wish.seed % 3 + u64::from(port)) % 3 + 1) as u8
    }
}
