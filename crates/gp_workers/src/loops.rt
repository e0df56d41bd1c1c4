//! What the threads of an operator and of a clock run: commands or frames, served in order up to the first fault.
ghost use Rattle.std.specs.Prelude.{◌≡◌, length, IfOk, OnErr, OnOk};
ghost use Rattle.gp_workers.specs.Asked.{Extends, ExtendsBy, frames_on, frames_of, commands_of};

use super::ports::Ports;
use super::worker::Worker;
use gp_chassis::ApplyFault;
use gp_machine::{Command, Event};
use std::sync::Wait;
use std::sync::ledger::Ledger;

/// Has each command served by its port, in order, and tells how many there were. It ends at the first fault.
pub fn operator_loop<P: Ports<L>, L: Ledger, R: Wait>(
    rt: &R,
    ports: &P,
    worker: &mut Worker<L>,
    commands: &[(u8, Command)],
) -> Result<u64, ApplyFault>
    ensures ok { OnOk result (Extends worker.old.receipts worker.new.receipts (commands_of commands.now)) }
    ensures count { IfOk result (λ count. count ≡ length commands.now) }
    ensures err { OnErr result (ExtendsBy worker.old.receipts worker.new.receipts (commands_of commands.now)) }
{
    let mut count = 0u64;
    for (port, command) in commands {
        if let Err(fault) = ports.apply(rt, worker, *port, Event::Command(*command)) {
            return Err(fault);
        }
        count += 1;
    }
    Ok(count)
}

/// Has a port serve so many frames.
fn frames<P: Ports<L>, L: Ledger, R: Wait>(
    rt: &R,
    ports: &P,
    worker: &mut Worker<L>,
    port: u8,
    count: u32,
) -> Result<(), ApplyFault>
    ensures ok { OnOk result (Extends worker.old.receipts worker.new.receipts (frames_on port count)) }
    ensures err { OnErr result (ExtendsBy worker.old.receipts worker.new.receipts (frames_on port count)) }
{
    for _ in 0..count {
        if let Err(fault) = ports.apply(rt, worker, port, Event::Frame) {
            return Err(fault);
        }
    }
    Ok(())
}

/// Has the frames of each pair of a port and a count served, pair after pair, and tells how many there were. It ends
/// at the first fault.
pub fn clock_loop<P: Ports<L>, L: Ledger, R: Wait>(
    rt: &R,
    ports: &P,
    worker: &mut Worker<L>,
    pairs: &[(u8, u32)],
) -> Result<u64, ApplyFault>
    ensures ok { OnOk result (Extends worker.old.receipts worker.new.receipts (frames_of pairs.now)) }
    ensures count { IfOk result (λ count. count ≡ length (frames_of pairs.now)) }
    ensures err { OnErr result (ExtendsBy worker.old.receipts worker.new.receipts (frames_of pairs.now)) }
{
    let start = worker.receipts().len();
    for (port, count) in pairs {
        if let Err(fault) = frames(rt, ports, worker, *port, *count) {
            return Err(fault);
        }
    }
    Ok((worker.receipts().len() - start) as u64)
}
