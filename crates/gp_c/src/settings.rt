//! The configuration, as the caller gives it and as the chassis takes it.
ghost use Rattle.std.specs.Prelude.{◌≡◌, ◌⊎◌, Some, None, Err, IfOk, IfErr, map};
ghost use Rattle.gp_c.specs.Settings as spec;

use crate::fault::Fault;
use gp_machine::{Admitted, PortConfig};
use gp_ploam::{Mask, Serial};
use std::alloc::{AllocError, Global};

/// A serial number: eight octets.
#[repr(C)]
#[derive(Clone, Copy, Debug)]
pub struct SerialNumber {
    /// Four octets of the vendor, and four that the vendor numbers its units by.
    pub octets: [u8; 8],
}

/// What a chassis is opened with, beside its ports.
#[repr(C)]
#[derive(Clone, Copy, Debug)]
pub struct ChassisSettings {
    /// How many licences there are, each for one active unit on any port, at most 4064.
    pub licences: u32,
    /// How many entries the journal of each port keeps at most, 1 to 1,000,000.
    pub journal_limit: u32,
}

/// What a port is opened with.
#[repr(C)]
#[derive(Clone, Copy, Debug)]
pub struct PortSettings {
    /// The equalized round-trip delay, in bit times.
    pub teqd: u32,
    /// After how many frames in standby a search begins by itself, at most 1,000,000; 0 for never.
    pub search_period: u32,
    /// How many serial numbers the port admits, at most 512: the next of those that come with the ports.
    pub admitted: u32,
    /// The greatest Alloc-ID that may be assigned, 256 to 4095.
    pub alloc_last: u16,
    /// For how many frames a freed ONU-ID is not given to another unit, at most 8000; 0 for none.
    pub quarantine: u16,
    /// 0: check octets are as they are; else they are XORed with 85.
    pub is_masked: u8,
    /// How many units may be active at once, 1 to 254.
    pub max_units: u8,
    /// How many search windows an acquisition has, 1 to 10.
    pub cycles: u8,
    /// The ten octets of Upstream_Overhead.
    pub overhead: [u8; 10],
}

/// Makes the configurations. The ports admit the serial numbers in order, each as many as it says, and none is left;
/// else the fault is `Serials`. The other fault is `OutOfMemory`.
pub(crate) fn ports_of(
    alloc: Global,
    ports: &[PortSettings],
    serials: &[SerialNumber],
) -> Result<Vec<PortConfig>, Fault>
    ensures ok { IfOk result (λ made. spec.ports_of ports.now serials.now ≡ Some made.items) }
    ensures serials { result ≡ Err Fault.Serials → spec.ports_of ports.now serials.now ≡ None }
    ensures only { IfErr result (λ fault. (fault ≡ Fault.Serials) ⊎ (fault ≡ Fault.OutOfMemory)) }
{
    let mut made = Vec::new(alloc);
    let mut left = serials;
    for port in ports {
        let count = port.admitted as usize;
        if count > left.len() {
            return Err(Fault::Serials);
        }
        let (here, rest) = left.split_at(count);
        left = rest;
        let Ok(config) = port_of(alloc, port, here) else {
            return Err(Fault::OutOfMemory);
        };
        if made.push(config).is_err() {
            return Err(Fault::OutOfMemory);
        }
    }
    if left.is_empty() {
        Ok(made)
    } else {
        Err(Fault::Serials)
    }
}

/// Makes the configuration of one port, which admits these serial numbers.
fn port_of(
    alloc: Global,
    port: &PortSettings,
    serials: &[SerialNumber],
) -> Result<PortConfig, AllocError>
    ensures { IfOk result (λ made. made ≡ spec.port_config port.now serials.now) }
{
    let admitted = serials_of(alloc, serials)?;
    Ok(PortConfig {
        mask: mask_of(port.is_masked),
        teqd: port.teqd,
        overhead: port.overhead,
        max_units: port.max_units,
        alloc_last: port.alloc_last,
        cycles: port.cycles,
        search_period: port.search_period,
        quarantine: port.quarantine,
        admitted: Admitted::from(admitted),
    })
}

/// Makes the mask of a port.
fn mask_of(is_masked: u8) -> Mask
    ensures { result ≡ spec.mask_of is_masked }
{
    if is_masked == 0 {
        Mask::Plain
    } else {
        Mask::Coset
    }
}

/// Makes a list of serial numbers.
fn serials_of(alloc: Global, serials: &[SerialNumber]) -> Result<Vec<Serial>, AllocError>
    ensures { IfOk result (λ made. made.items ≡ map spec.serial_of serials.now) }
{
    let mut made = Vec::with_capacity(alloc, serials.len())?;
    for serial in serials {
        made.push_reserved(Serial(serial.octets));
    }
    Ok(made)
}
