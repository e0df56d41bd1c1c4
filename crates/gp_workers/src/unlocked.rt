//! A desk out of its lock, while a chassis is closed or cut; all are taken out and put back in their order.
ghost use Rattle.std.specs.Prelude.{◌≡◌, ◌≤◌, vec_len, vec_capacity};

use gp_accounts::Recorded;
use gp_chassis::PortDesk;
use gp_linear::NeverDropped;
use gp_machine::Entry;
use std::marker::Model;
use std::sync::Mutex;
use std::sync::ledger::Ledger;

/// A desk that is out of its lock. Contracts see the desk.
pub(crate) struct Unlocked<L: Ledger> {
    pub(crate) desk: PortDesk<L>,
}

impl<L: Ledger> NeverDropped for Unlocked<L> {}

impl<L: Ledger> Model for Unlocked<L> {
    ghost use Rattle.gp_machine.specs.Codes.{port_codes};
    ghost use Rattle.gp_machine.specs.contracts.entry.Entry as entry;
    ghost use Rattle.gp_chassis.specs.Desk.{DeskState};

    ghost Value = { DeskState };

    ghost coded = { Prim.hlevel (port_codes, entry.the_row.coded) };

    ghost view = { λ u. u.desk };
}

impl<L: Ledger> Recorded for Unlocked<L> {
    ghost use Rattle.gp_chassis.specs.Desk.{history_of_desk};

    ghost history = { history_of_desk };

    fn first(&self) -> u64 {
        self.desk.journal().first()
    }

    fn entries(&self) -> &[Entry] {
        self.desk.journal().entries()
    }
}

/// Takes the desks out of their locks, in order.
pub(crate) fn take_out<L: Ledger>(
    ports: Vec<Mutex<PortDesk<L>>>,
    desks: Vec<Unlocked<L>>,
) -> (Vec<Mutex<PortDesk<L>>>, Vec<Unlocked<L>>)
    requires empty { vec_len desks ≡ 0 }
    requires room { vec_len ports ≤ vec_capacity desks }
    ensures ports { vec_len result.0 ≡ 0 }
    ensures room { vec_len ports ≤ vec_capacity result.0 }
    ensures desks { vec_len result.1 ≡ vec_len ports }
{
    let mut ports = ports;
    let mut desks = desks;
    while !ports.is_empty() {
        let port = ports.remove(0);
        desks.push_reserved(Unlocked {
            desk: port.into_inner(),
        });
    }
    (ports, desks)
}

/// Puts the desks back under locks, in order.
pub(crate) fn put_back<L: Ledger>(
    desks: Vec<Unlocked<L>>,
    ports: Vec<Mutex<PortDesk<L>>>,
) -> Vec<Mutex<PortDesk<L>>>
    requires empty { vec_len ports ≡ 0 }
    requires room { vec_len desks ≤ vec_capacity ports }
    ensures { vec_len result ≡ vec_len desks }
{
    let mut ports = ports;
    let mut desks = desks;
    while !desks.is_empty() {
        let Unlocked { desk } = desks.remove(0);
        ports.push_reserved(Mutex::new(desk));
    }
    desks.destroy_empty();
    ports
}
