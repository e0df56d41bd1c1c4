//! The serial numbers that are admitted, each on one port.
ghost use Rattle.std.specs.Prelude.{◌≡◌, ℕ, ◌<◌, ◌≤◌, ◌↔◌, false, None, Some, Err, IsSome, IsTrue, MatchOption, OnOk, OnErr, slice_index};
ghost use Rattle.std.specs.FinMap as map;
ghost use Rattle.gp_serial.specs.Admitted.{admission_on, count_on};

use crate::fault::AdmitFault;
use crate::index::{Admission, Index};
use gp_ploam::Serial;
use std::alloc::Global;
use std::marker::Model;

/// The most serial numbers that are admitted on one port (this profile's own rule).
pub const MAX_ON_A_PORT: u16 = 512;

/// The admitted serial numbers. Contracts see them as a map from serial number to `Admission`.
///
/// A call takes time by the logarithm of their number. A port is any `u8`. No serial number is
/// admitted on two ports, and no port admits more than `MAX_ON_A_PORT`.
#[derive(Drop)]
pub struct AdmissionList {
    index: Index,
    // how many are admitted on each port
    counts: [u16; 256],
}

impl Model for AdmissionList {
    ghost use Rattle.std.specs.FinMap as map;
    ghost use Rattle.gp_ploam.specs.Serials.{serial_cmp, coded_serial};
    ghost use Rattle.gp_serial.specs.Admitted.{AreCounts};
    ghost use Rattle.gp_serial.specs.declared.index.Admission.{Admission};
    ghost use Rattle.gp_serial.specs.contracts.index.Admission as admission;

    ghost Value = { map.FinMap serial_cmp Admission };

    ghost coded = { map.code coded_serial admission.the_row.coded };

    ghost view = { λ a. a.index };

    ghost invariant = { λ a. AreCounts a.index a.counts };
}

impl AdmissionList {
    /// Makes a list on which none is admitted.
    pub fn new(alloc: Global) -> AdmissionList
        ensures { result ≡ map.empty }
    {
        AdmissionList {
            index: Index::new(alloc),
            counts: no_counts(),
        }
    }

    /// Admits a serial number on a port, not disabled. A refusal changes nothing: `Duplicate` where the serial
    /// number is admitted already, on this port or another, else `Full` where the port has `MAX_ON_A_PORT`,
    /// else `OutOfMemory`.
    pub fn admit(&mut self, port: u8, serial: Serial) -> Result<(), AdmitFault>
        ensures ok { OnOk result (self.new ≡ map.insert self.old serial (admission_on port)) }
        ensures duplicate { (result ≡ Err AdmitFault.Duplicate) ↔ IsSome (map.get self.old serial) }
        ensures full { (result ≡ Err AdmitFault.Full)
            ↔ ((map.get self.old serial ≡ None) × (count_on port self.old ≡ MAX_ON_A_PORT)) }
        ensures err { OnErr result (self.new ≡ self.old) }
    {
        let count = self.admitted_on(port);
        if count >= MAX_ON_A_PORT {
            return Err(self.refusal_when_full(&serial));
        }
        let admission = Admission {
            port,
            disabled: false,
        };
        if !self.index.insert(serial, admission)? {
            return Err(AdmitFault::Duplicate);
        }
        self.counts[usize::from(port)] = count + 1;
        Ok(())
    }

    /// Tells why a serial number isn't admitted on a port that has `MAX_ON_A_PORT`.
    fn refusal_when_full(&self, serial: &Serial) -> AdmitFault
        ensures { MatchOption (map.get self.now serial.now) (result ≡ AdmitFault.Full)
            (λ _. result ≡ AdmitFault.Duplicate) }
    {
        match self.index.get(serial) {
            Some(_) => AdmitFault::Duplicate,
            None => AdmitFault::Full,
        }
    }

    /// Counts the serial numbers that are admitted on a port.
    pub fn admitted_on(&self, port: u8) -> u16
        ensures count { result ≡ count_on port self.now }
        ensures most { result ≤ MAX_ON_A_PORT }
    {
        self.counts[usize::from(port)]
    }

    /// Gives the port that a serial number is admitted on.
    pub fn port_of(&self, serial: &Serial) -> Option<u8>
        ensures { MatchOption (map.get self.now serial.now) (result ≡ None) (λ a. result ≡ Some a.port) }
    {
        self.index.get(serial).map(|admission| admission.port)
    }

    /// Tells whether a serial number is admitted, and disabled.
    pub fn is_disabled(&self, serial: &Serial) -> bool
        ensures { MatchOption (map.get self.now serial.now) (result ≡ false) (λ a. result ≡ a.disabled) }
    {
        self.index
            .get(serial)
            .is_some_and(|admission| admission.disabled)
    }

    /// Disables an admitted serial number, or enables it, and says whether it is admitted.
    pub fn set_disabled(&mut self, serial: &Serial, disabled: bool) -> bool
        ensures known { IsTrue result ↔ IsSome (map.get self.old serial.now) }
        ensures set { MatchOption (map.get self.old serial.now) (self.new ≡ self.old)
            (λ a. self.new ≡ map.insert self.old serial.now (record a { disabled = disabled })) }
    {
        self.index.set_disabled(serial, disabled)
    }
}

/// Counts none on any port.
fn no_counts() -> [u16; 256]
    ensures { (port : ℕ) → port < 256 → slice_index result port ≡ 0 }
{
    [0; 256]
}
