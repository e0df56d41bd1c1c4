//! What no clause says: a port used by hand, its fault texts, memory that is refused, and octets of each length.
//! `lines.rt` plays a port by lines, which are in `parts.rt`; `worked.rt` and `images.rt` play runs so. More worked
//! runs stand as scripts with their traces in `olt_examples`.
ghost use Rattle.std.specs.Prelude.{◌≡◌};

mod images;
mod lines;
mod parts;
mod worked;

use crate::samples::prints;
use gp_licence::{LicenceBook, Licences, MAX_LICENCES};
use gp_machine::{Admitted, Command, Event, PortConfig, Reply};
use gp_ploam::{Mask, PloamFault};
use gp_port::{OpenFault, PortCore, burst_of};
use lines::A;
use std::alloc::{AllocError, Global};
use std::marker::Brand;
use std::sync::ledger::{Blank, Ledger};

/// A's serial number, without an ONU-ID.
const A_SEARCHED: [u8; 13] = [0xff, 1, 0x41, 0x42, 0x43, 0x44, 0, 0, 0, 1, 0, 0, 0x2c];

/// Makes the defaults but for two numbers, with A admitted.
fn config_of_a(alloc: Global, cycles: u8, quarantine: u16) -> Result<PortConfig, AllocError> {
    Ok(PortConfig {
        mask: Mask::Plain,
        teqd: 311_040,
        overhead: [0; 10],
        max_units: 254,
        alloc_last: 4095,
        cycles,
        search_period: 0,
        quarantine,
        admitted: Admitted::from([A].to_vec(alloc)?),
    })
}

/// Makes a step without a licence at hand.
fn step_without<L: Ledger>(port: &mut PortCore<L>, book: &mut LicenceBook<L>, event: Event) {
    let (_, rest) = port.step(Licences::none(), event);
    book.give(rest);
}

/// Finds one unit by hand: how a port is begun, stepped and closed.
fn find_one<L: Ledger>(alloc: Global, blank: Blank, config: &PortConfig) -> Result<Reply, OpenFault>
    requires name { blank.name ≡ L.name }
    requires parts { (blank.parts ≡ L.parts) × (L.parts ≡ MAX_LICENCES) }
{
    let mut port = PortCore::<L>::begin(alloc, config)?;
    let mut book = LicenceBook::<L>::new(blank, 1);

    // The operator asks for a search; its window opens with the fifth frame.
    step_without(&mut port, &mut book, Event::Command(Command::Search));
    for _ in 0..5 {
        step_without(&mut port, &mut book, Event::Frame);
    }

    // A burst comes with a licence, if one is free; what the port doesn't use comes back.
    let bytes = A_SEARCHED;
    let (answer, rest) = port.step(book.take(), Event::Burst { at: 100_000, bytes });
    book.give(rest);

    book.close(port.close());
    Ok(answer.reply)
}

/// The same with a new ledger, on a port with the defaults.
fn find_one_unit(alloc: Global) -> Result<Reply, OpenFault> {
    let config = config_of_a(alloc, 3, 800)?;
    find_one::<Brand>(alloc, Blank::new(u64::from(MAX_LICENCES)), &config)
}

#[test]
fn one_unit_by_hand(rt: HostRuntime) {
    assert!(rt; find_one_unit(rt.alloc()) == Ok(Reply::Found(0)));
}

/// Tells why a port with this configuration is not opened, if it is not.
fn fault_of(alloc: Global, config: &PortConfig) -> Option<OpenFault> {
    match PortCore::<Brand>::begin(alloc, config) {
        Ok(port) => {
            port.close().drop_empty();
            None
        }
        Err(fault) => Some(fault),
    }
}

/// Tells the same of the defaults but for these numbers.
fn fault_with(alloc: Global, cycles: u8, quarantine: u16) -> Option<OpenFault> {
    match config_of_a(alloc, cycles, quarantine) {
        Ok(config) => fault_of(alloc, &config),
        Err(_) => Some(OpenFault::OutOfMemory),
    }
}

// Run with each allocation refused in turn (`rt try --test --fail-alloc N`).
#[test]
fn opened_with_ample_memory(rt: HostRuntime) {
    let fault = fault_with(rt.alloc(), 3, 800);
    assert!(rt; fault.is_none() || fault == Some(OpenFault::OutOfMemory));
}

/// No search windows, and a quarantine of 8001 frames.
#[test]
fn outside_the_limits(rt: HostRuntime) {
    assert!(rt; fault_with(rt.alloc(), 0, 800) == Some(OpenFault::Limit));
    assert!(rt; fault_with(rt.alloc(), 3, 8001) == Some(OpenFault::Limit));
}

/// Twelve, thirteen and fourteen octets.
#[test]
fn twelve_to_fourteen_octets(rt: HostRuntime) {
    let thirteen = Event::Burst {
        at: 1,
        bytes: [0xff; 13],
    };
    assert!(rt; burst_of(1, &[0xff; 12]) == Err(PloamFault::Length));
    assert!(rt; burst_of(1, &[0xff; 13]) == Ok(thirteen));
    assert!(rt; burst_of(1, &[0xff; 14]) == Err(PloamFault::Length));
}

#[test]
fn fault_texts(rt: HostRuntime) {
    let limit = "a number is outside its range, or a serial number is admitted twice";
    assert!(rt; prints(rt.alloc(), &OpenFault::Limit, limit));
    assert!(rt; prints(rt.alloc(), &OpenFault::OutOfMemory, "out of memory"));
}
