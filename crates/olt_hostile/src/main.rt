//! `olt_hostile`: uses the library badly, and prints for each table of cases how many came out as they should, and
//! the first that did not. What the bursts of `bursts.rt` were answered with is printed too. It ends with status 1
//! where a case did not.
//!
//! - `octets.rt`: octets of each length, into whatever reads octets.
//! - `bursts.rt`: every identifier with every octet 1, in each window of a port; the same through scripts in
//!   `script_bursts.rt`.
//! - `impersonation.rt`: units that speak for others, and units that have no business on the port, line by line as
//!   `stories.rt` has them.
//! - `streams.rt`: readers and writers that fail. `scripts.rt`: bytes and texts that are no script, and keys with a
//!   fault, or two.
//! - `port.rt`: the port that is attacked. `tally.rt`: how many cases came out right.
//!
//! A new case is a line of its table. What a burst or a command has to be answered with is said in docs/MACHINE.md,
//! which fault a script has in docs/SCRIPTS.md.
//!
//! With the checks of `rt try` it takes some minutes: `rt try --seconds 600`.
#![tactic(auto)]

ghost use Rattle.std.specs.Prelude.{◌≡◌};
ghost use Rattle.gp_licence.specs.declared.ledger_parts.TheConstants.{MAX_LICENCES};

mod bursts;
mod impersonation;
mod octets;
mod port;
mod script_bursts;
mod scripts;
mod stories;
mod streams;
mod tally;

use gp_licence::MAX_LICENCES;
use port::AttackedPort;
use std::io;
use std::marker::Brand;
use std::process::ExitCode;
use std::sync::ledger::{Blank, Ledger};

/// Attacks ports whose licences are parts of this ledger.
fn attack_ports<L: Ledger, R: AllocGlobal + Print>(rt: &R, blank: Blank) -> io::Result<bool>
    requires name { blank.name ≡ L.name }
    requires parts { (blank.parts ≡ L.parts) × (L.parts ≡ MAX_LICENCES) }
{
    let mut port = AttackedPort::<L>::begin(rt.alloc(), blank)?;
    let result = attack(rt, &mut port);
    port.close();
    result
}

fn attack<L: Ledger, R: AllocGlobal + Print>(
    rt: &R,
    port: &mut AttackedPort<L>,
) -> io::Result<bool> {
    let mut right = bursts::check(rt, port)?;
    right &= impersonation::check(rt, port)?;
    Ok(right)
}

/// Runs all tables, and tells whether each case came out as it should.
fn run<R: AllocGlobal + Print>(rt: &R) -> io::Result<bool> {
    let mut right = octets::check(rt)?;
    right &= attack_ports::<Brand, R>(rt, Blank::new(u64::from(MAX_LICENCES)))?;
    right &= script_bursts::check(rt)?;
    right &= streams::check(rt)?;
    right &= scripts::check(rt)?;
    Ok(right)
}

fn main(rt: HostRuntime) -> ExitCode {
    match run(&rt) {
        Ok(true) => ExitCode::SUCCESS,
        Ok(false) => ExitCode::FAILURE,
        Err(error) => {
            let _ = eprintln!(&rt; "olt_hostile: {error}");
            ExitCode::FAILURE
        }
    }
}
