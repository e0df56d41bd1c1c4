//! A chassis that any number of threads share: up to sixteen ports, each under a lock of its own, and one stock of
//! licences under another lock, with up to 64 workers. No call holds two of the locks at once.
//!
//! Promise: what workers applied at once is accounted for when the chassis ends, and each port's journal is a run
//! (`Chassis::apply`, `close`, `cut`).
//!
//! - `chassis.rt`: `Chassis`: it is opened, makes workers, has a port serve an event, and is discarded. `opening.rt`:
//!   how its ports are opened and how they end.
//! - `worker.rt`: `Worker`, with the receipts of what it had served. `fault.rt`: why none is made. `gate.rt`: `Gate`,
//!   which looks at a chassis while it runs, for tests.
//! - `closing.rt`: how a chassis is closed or cut: the receipts of its workers and its journals have to tell of the
//!   same steps. `unlocked.rt`: a desk out of its lock. `desks.rt`: what all desks are asked, and how they end.
//!   `totals.rt`: what journals add up to.
//! - `ports.rt`: `Ports`, what has ports serve events. `loops.rt`, `reader.rt`: what the threads over it run: an
//!   operator, a clock, and a reader for each port.
//!
//! `specs/Chassis.antt` is what contracts see of a chassis and its workers, `specs/Closing.antt` what it leaves,
//! `specs/Totals.antt` what is counted, `specs/Asked.antt` how receipts grow by what was asked, and `specs/Ring.antt`
//! what a reader finds.
//!
//! What happens under a port's lock is `PortDesk::serve` of `gp_chassis`, and nothing else: a changed step is changed
//! below it. When receipts and journals agree is `gp_accounts`. A further count is a field of `Totals` and a line in
//! `specs/Totals.antt`.
#![tactic(auto)]

mod chassis;
mod closing;
mod desks;
mod fault;
mod gate;
mod loops;
mod opening;
mod ports;
mod reader;
mod totals;
mod unlocked;
mod worker;

pub use chassis::{Chassis, MAX_WORKERS};
pub use closing::{CloseRefused, Closed, Cut};
pub use fault::WorkerFault;
pub use gate::{Gate, NoGate};
pub use gp_accounts::CloseFault;
pub use loops::{clock_loop, operator_loop};
pub use ports::Ports;
pub use reader::{RingItem, reader_loop};
pub use totals::Totals;
pub use worker::Worker;
