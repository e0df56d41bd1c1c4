//! Sixteen ports in a program of its own, all of whose entries, pieces and images are read.
ghost use Rattle.std.specs.Prelude.{◌≡◌};
ghost use Rattle.gp_licence.specs.declared.ledger_parts.TheConstants.{MAX_LICENCES};

use crate::choices::Choices;
use crate::digest::Digest;
use crate::fault::JobFault;
use crate::fields::add_receipt;
use crate::images::add_piece;
use crate::traffic::{Serve, Traffic, run};
use crate::units::Units;
use gp_chassis::ChassisCore;
use gp_licence::MAX_LICENCES;
use gp_machine::Event;
use gp_ploam::Mask;
use std::alloc::Global;
use std::marker::Brand;
use std::sync::ledger::{Blank, Ledger};

/// How many licences the chassis has: too few for all units of sixteen ports.
const LICENCES: u32 = 4_000;

/// How many entries a port's journal keeps before it is cut.
const ENTRIES: u64 = 4_096;

/// A chassis, and the digest of all that it answers and of all pieces that are cut from it.
struct Digested<L: Ledger> {
    alloc: Global,
    core: ChassisCore<L>,
    digest: Digest,
}

impl<L: Ledger> Digested<L> {
    /// Cuts a port's journal, and adds the piece.
    #[inline(never)]
    fn cut(&mut self, port: u8) -> Result<(), JobFault> {
        match self.core.cut(self.alloc, port) {
            Ok(piece) => {
                add_piece(&mut self.digest, &piece);
                Ok(())
            }
            Err(_) => Err(JobFault::OutOfMemory),
        }
    }

    /// Closes the chassis, and gives the digest.
    fn close(self) -> Digest {
        let Digested {
            alloc: _,
            core,
            mut digest,
        } = self;
        digest.add(u64::from(core.free()));
        digest.add(u64::from(core.close()));
        digest
    }
}

impl<L: Ledger> Serve for Digested<L> {
    fn serve(&mut self, units: &mut Units, event: Event) -> Result<(), JobFault> {
        let port = units.port();
        let Ok(receipt) = self.core.apply(port, event) else {
            return Err(JobFault::Unexpected);
        };
        add_receipt(&mut self.digest, &receipt);
        units.heed(&receipt.entry.answer);
        if receipt.number % ENTRIES == ENTRIES - 1 {
            self.cut(port)?;
        }
        Ok(())
    }
}

/// Opens a chassis, has frames go by, and closes it.
fn serve_on<L: Ledger>(
    alloc: Global,
    blank: Blank,
    choices: &mut Choices,
    digest: Digest,
) -> Result<Digest, JobFault>
    requires name { blank.name ≡ L.name }
    requires parts { (blank.parts ≡ L.parts) × (L.parts ≡ MAX_LICENCES) }
{
    let traffic = Traffic {
        lot: choices.below(256) as u8,
        ports: 16,
        masks: [Mask::Plain, Mask::Coset],
        frames: 30_000,
        flood: [2_000, 4_000],
        orders: 500,
    };
    let config = traffic.opening(alloc, LICENCES, ENTRIES as u32)?;
    let Ok(core) = ChassisCore::<L>::begin(alloc, blank, &config) else {
        return Err(JobFault::Unexpected);
    };
    let mut served = Digested {
        alloc,
        core,
        digest,
    };
    let outcome = run(alloc, &mut served, choices, traffic);
    let digest = served.close();
    outcome?;
    Ok(digest)
}

/// Serves the events of a part, and adds all that came of them.
pub(crate) fn serve(
    alloc: Global,
    part: u32,
    seed: u32,
    digest: Digest,
) -> Result<Digest, JobFault> {
    let mut choices = Choices::new(seed, part);
    let blank = Blank::new(u64::from(MAX_LICENCES));
    serve_on::<Brand>(alloc, blank, &mut choices, digest)
}
