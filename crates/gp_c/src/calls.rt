//! What a handle is asked: one function for each kind of call.
ghost use Rattle.std.specs.Prelude.{◌≡◌, None, IfOk};
ghost use Rattle.std.specs.Option.{ForSome};
ghost use Rattle.gp_ploam.specs.Down.{IsProperDown};
ghost use Rattle.gp_c.specs.Calls as spec;

use crate::answer::AnswerNumbers;
use crate::counts::PortCounts;
use crate::fault::Fault;
use crate::handle::{Handle, ask};
use crate::kept::KeptEntry;
use crate::op::Op;
use crate::row::RowNumbers;
use crate::settings::{ChassisSettings, PortSettings, SerialNumber, ports_of};
use gp_chassis::ChassisConfig;
use gp_licence::MAX_LICENCES;
use gp_machine::Event;
use gp_ploam::Serial;
use std::alloc::Global;
use std::mem;
use std::sync::ledger::Blank;

/// Opens a chassis behind a closed handle.
pub(crate) fn open(
    handle: &mut Handle,
    alloc: Global,
    settings: &ChassisSettings,
    ports: &[PortSettings],
    serials: &[SerialNumber],
) -> Result<(), Fault>
    ensures { spec.OpensHandle
        (spec.asked_for settings.now ports.now serials.now) handle.old.value handle.new.value result }
{
    if free(handle, alloc).is_ok() {
        return Err(Fault::IsOpen);
    }
    let ports = ports_of(alloc, ports, serials)?;
    let config = ChassisConfig {
        licences: settings.licences,
        journal_limit: settings.journal_limit,
        ports,
    };
    let (next, out) = Handle::open(alloc, Blank::new(u64::from(MAX_LICENCES)), config);
    mem::replace(handle, next).end();
    out.done()
}

/// Has a port serve an event.
#[inline(always)]
pub(crate) fn apply(
    handle: &mut Handle,
    alloc: Global,
    port: u8,
    event: Event,
) -> Result<AnswerNumbers, Fault>
    ensures { spec.ServesEvent handle.old.value port event handle.new.value result }
{
    ask(handle, alloc, Op::Apply { port, event }).answered()
}

/// Tells what a port knows of a unit.
#[inline(always)]
pub(crate) fn show(
    handle: &mut Handle,
    alloc: Global,
    port: u8,
    serial: Serial,
) -> Result<RowNumbers, Fault>
    ensures unchanged { handle.new.value ≡ handle.old.value }
    ensures shown { result ≡ spec.shown_at handle.old.value port serial }
{
    ask(handle, alloc, Op::Show { port, serial }).shown()
}

/// Tells how many licences are free.
#[inline(always)]
pub(crate) fn free(handle: &mut Handle, alloc: Global) -> Result<u32, Fault>
    ensures unchanged { handle.new.value ≡ handle.old.value }
    ensures free { result ≡ spec.free_at handle.old.value }
{
    ask(handle, alloc, Op::Count).counted()
}

/// Tells what is counted of a port.
#[inline(always)]
pub(crate) fn tally(handle: &mut Handle, alloc: Global, port: u8) -> Result<PortCounts, Fault>
    ensures unchanged { handle.new.value ≡ handle.old.value }
    ensures counts { result ≡ spec.tallied_at handle.old.value port }
{
    ask(handle, alloc, Op::Tally { port }).tallied()
}

/// Gives an entry that a port's journal keeps.
#[inline(always)]
pub(crate) fn entry(
    handle: &mut Handle,
    alloc: Global,
    port: u8,
    number: u64,
) -> Result<KeptEntry, Fault>
    ensures unchanged { handle.new.value ≡ handle.old.value }
    ensures kept { result ≡ spec.kept_at handle.old.value port number }
    ensures proper { IfOk result (λ kept. ForSome kept.receipt.entry.answer.sent IsProperDown) }
{
    ask(handle, alloc, Op::Entry { port, number }).kept()
}

/// Lets go what a port's journal keeps.
#[inline(always)]
pub(crate) fn cut(handle: &mut Handle, alloc: Global, port: u8) -> Result<(), Fault>
    ensures { spec.CutsJournal handle.old.value port handle.new.value result }
{
    ask(handle, alloc, Op::Cut { port }).done()
}

/// Closes the handle.
pub(crate) fn close(handle: &mut Handle, alloc: Global) -> Result<(), Fault>
    ensures closed { handle.new.value ≡ None }
    ensures done { result ≡ spec.closed_at handle.old.value }
{
    ask(handle, alloc, Op::Close).done()
}
