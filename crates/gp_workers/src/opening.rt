//! How the ports of a chassis are opened, and how they end.
ghost use Rattle.std.specs.Prelude.{◌≡◌, length, vec_len, IfOk, IfErr};

use gp_chassis::PortDesk;
use gp_licence::{LicenceBook, Licences};
use gp_machine::PortConfig;
use gp_port::OpenFault;
use std::alloc::{AllocError, Global};
use std::sync::Mutex;
use std::sync::ledger::Ledger;

/// Opens a port for each configuration, under a lock of its own. Where there is no memory, the book ends, with the
/// ports that were opened so far.
pub(crate) fn open_ports<L: Ledger>(
    alloc: Global,
    configs: &[PortConfig],
    journal_limit: u32,
    book: LicenceBook<L>,
) -> Result<(Vec<Mutex<PortDesk<L>>>, LicenceBook<L>), OpenFault>
    ensures ports { IfOk result (λ opened. vec_len opened.0 ≡ length configs.now) }
    ensures book { IfOk result (λ opened. opened.1 ≡ book) }
    ensures err { IfErr result (λ fault. fault ≡ OpenFault.OutOfMemory) }
{
    let Ok(mut ports) = Vec::with_capacity(alloc, configs.len()) else {
        book.close(Licences::none());
        return Err(OpenFault::OutOfMemory);
    };
    for config in configs {
        let Ok(desk) = PortDesk::begin(alloc, config, journal_limit) else {
            end_ports(ports, book);
            return Err(OpenFault::OutOfMemory);
        };
        ports.push_reserved(Mutex::new(desk));
    }
    Ok((ports, book))
}

/// Ends ports, and the book with the licences of their units, and tells how many came back.
pub(crate) fn end_ports<L: Ledger>(ports: Vec<Mutex<PortDesk<L>>>, book: LicenceBook<L>) -> u32 {
    let mut ports = ports;
    let mut book = book;
    while let Some(port) = ports.pop() {
        let (_journal, held) = port.into_inner().close();
        book.give(held);
    }
    ports.destroy_empty();
    book.close(Licences::none())
}

/// Makes a second list of the same configurations.
pub(crate) fn clone_configs(
    alloc: Global,
    configs: &[PortConfig],
) -> Result<Vec<PortConfig>, AllocError>
    ensures { IfOk result (λ clones. clones.items ≡ configs.now) }
{
    let mut clones = Vec::with_capacity(alloc, configs.len())?;
    for config in configs {
        clones.push_reserved(config.try_clone(alloc)?);
    }
    Ok(clones)
}
