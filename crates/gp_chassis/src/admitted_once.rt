//! Whether no serial number is admitted twice, on one port or on two.
ghost use Rattle.std.specs.Prelude.{◌≡◌, ◌+◌, ◌<◌, ◌≤◌, ◌++◌, ◌&&◌, ◌||◌, Err, List, length, false, OnOk, IsTrue};
ghost use Rattle.std.specs.List.{list_any};
ghost use Rattle.gp_ploam.specs.declared.message.Serial.{Serial as SerialNumber};
ghost use Rattle.gp_ploam.specs.Serials as spec;
ghost use Rattle.gp_machine.specs.declared.config.PortConfig.{PortConfig as Configured};
ghost use Rattle.gp_machine.specs.Config.{is_distinct};
ghost use Rattle.gp_chassis.specs.Limits.{Lists, all_admitted};

use gp_machine::{PortConfig, is_among};
use gp_ploam::Serial;
use gp_serial::{AdmissionList, AdmitFault};
use std::alloc::Global;

/// Tells whether no serial number is admitted twice on these ports. Without memory for a list of them it compares
/// each with all others.
pub(crate) fn admits_each_once(alloc: Global, ports: &[PortConfig]) -> bool
    requires { length ports.now ≤ 256 }
    ensures { result ≡ is_distinct (all_admitted ports.now) }
{
    match admit_all(alloc, ports) {
        Ok(()) => true,
        Err(AdmitFault::Duplicate) => false,
        Err(_) => are_all_apart(ports),
    }
}

/// Admits the serial numbers of all ports on one list, up to the first that is there already.
fn admit_all(alloc: Global, ports: &[PortConfig]) -> Result<(), AdmitFault>
    requires { length ports.now ≤ 256 }
    ensures ok { OnOk result (IsTrue (is_distinct (all_admitted ports.now))) }
    ensures duplicate { result ≡ Err AdmitFault.Duplicate → is_distinct (all_admitted ports.now) ≡ false }
{
    let mut list = AdmissionList::new(alloc);
    for place in 0..ports.len() {
        match admit_on(&mut list, place as u8, ports[place].admitted.as_slice()) {
            Ok(()) => {}
            Err(fault) => return Err(fault),
        }
    }
    Ok(())
}

/// Admits these serial numbers on a port, up to the first that is on the list already.
fn admit_on(list: &mut AdmissionList, port: u8, serials: &[Serial]) -> Result<(), AdmitFault>
    ensures ok { (before : List SerialNumber) → OnOk result (Lists list.old before → IsTrue (is_distinct before)
        → Lists list.new (before ++ serials.now) × IsTrue (is_distinct (before ++ serials.now))) }
    ensures duplicate { (before : List SerialNumber) → result ≡ Err AdmitFault.Duplicate → Lists list.old before
        → IsTrue (is_distinct before) → is_distinct (before ++ serials.now) ≡ false }
{
    for serial in serials {
        match list.admit(port, *serial) {
            Ok(()) => {}
            Err(fault) => return Err(fault),
        }
    }
    Ok(())
}

/// Tells the same without memory.
fn are_all_apart(ports: &[PortConfig]) -> bool
    ensures { result ≡ is_distinct (all_admitted ports.now) }
{
    for i in 0..ports.len() {
        if !are_apart(ports[i].admitted.as_slice(), &ports[i + 1..]) {
            return false;
        }
    }
    true
}

/// Tells whether none of these serial numbers stands twice, or is admitted on one of the ports.
fn are_apart(serials: &[Serial], ports: &[PortConfig]) -> bool
    ensures { is_distinct (serials.now ++ all_admitted ports.now) ≡ (result && is_distinct (all_admitted ports.now)) }
{
    for i in 0..serials.len() {
        if is_again(&serials[i], &serials[i + 1..], ports) {
            return false;
        }
    }
    true
}

/// Tells whether the serial number is one of the others, or is admitted on one of the ports.
fn is_again(serial: &Serial, others: &[Serial], ports: &[PortConfig]) -> bool
    ensures { result ≡
        (spec.is_among serial.now others.now
        || list_any (λ (port : Configured). spec.is_among serial.now port.admitted) ports.now) }
{
    is_among(serial, others) || is_admitted(serial, ports)
}

/// Tells whether the serial number is admitted on one of the ports.
fn is_admitted(serial: &Serial, ports: &[PortConfig]) -> bool
    ensures { result ≡ list_any (λ (port : Configured). spec.is_among serial.now port.admitted) ports.now }
{
    ports.iter().any(|port| port.admitted.contains(serial))
}
