//! A place for an engine, which is there or not.
ghost use Rattle.std.specs.Prelude.{◌≡◌, ℕ, Option, Some, None};
ghost use Rattle.std.specs.Option.{option_map};
ghost use Rattle.std.specs.contracts.impls.GlobalAllocator.TheImpl.{ghosts as global};
ghost use Rattle.std.specs.Coded.{coded_option};
ghost use Rattle.gp_chassis.specs.Core.{CoreState};
ghost use Rattle.gp_c.specs.contracts.engine.Engine as engine;
ghost use Rattle.gp_c.specs.Held.{held, engine_row};
ghost use Rattle.gp_c.specs.Serves.{Serves, Opens};
ghost use Rattle.gp_c.specs.Outs.{done_of};

use crate::engine::Engine;
use crate::fault::Fault;
use crate::loose::Loose;
use crate::op::{Op, Out};
use gp_chassis::{ChassisConfig, ChassisCore};
use gp_licence::MAX_LICENCES;
use gp_port::OpenFault;
use std::alloc::Global;
use std::marker::Model;
use std::sync::ledger::{Blank, Ledger};

/// A place for an engine, with the fields that a `Handle` has.
pub(crate) struct Slot<L: Ledger> {
    pub(crate) at: *mut Engine<L>,
    pub(crate) is_open: u64,
    pub(crate) alloc: Global,
    pub(crate) ghost value: { Option CoreState } by { coded_option (engine_row 0 0).coded },
}

impl<L: Ledger> Model for Slot<L> {
    ghost also_owns = { λ s. held
        (global.dealloc_token s.alloc) (engine.the_row L.row L.Ledger) s.is_open s.at s.value };
}

impl<L: Ledger> Slot<L> {
    /// Makes a place with nothing in it.
    #[inline(always)]
    pub(crate) fn closed(alloc: Global) -> Slot<L>
        ensures { result.value ≡ None }
    {
        Slot {
            at: std::ptr::null_mut(),
            is_open: 0,
            alloc,
        }
    }

    /// Makes a place with an engine in it.
    #[inline(always)]
    pub(crate) fn of(loose: Loose<Engine<L>, Global>) -> Slot<L>
        ensures { result.value ≡ Some loose.value }
    {
        let Loose { at, alloc } = loose;
        Slot {
            at,
            is_open: 1,
            alloc,
        }
    }

    /// Gives the engine, where there is one.
    #[inline(always)]
    pub(crate) fn into_loose(self) -> Option<Loose<Engine<L>, Global>>
        ensures { self.value ≡ option_map (λ l. l.value) result }
    {
        let Slot { at, is_open, alloc } = self;
        if is_open == 1 {
            Some(Loose { at, alloc })
        } else {
            None
        }
    }
}

/// Opens a chassis.
pub(crate) fn open_slot<L: Ledger>(
    alloc: Global,
    blank: Blank,
    config: ChassisConfig,
) -> (Slot<L>, Out)
    requires { (blank.name ≡ L.name) × (blank.parts ≡ L.parts) × (L.parts ≡ MAX_LICENCES) }
    ensures { Opens config result.0.value (done_of result.1) }
{
    let core = match ChassisCore::begin(alloc, blank, &config) {
        Ok(core) => core,
        Err(OpenFault::Limit) => return (Slot::closed(alloc), Out::Done(Err(Fault::Limit))),
        Err(OpenFault::OutOfMemory) => {
            return (Slot::closed(alloc), Out::Done(Err(Fault::OutOfMemory)));
        }
    };
    match Box::new(alloc, Engine { core }) {
        Ok(engine) => (Slot::of(Loose::of(engine)), Out::Done(Ok(()))),
        Err(_) => (Slot::closed(alloc), Out::Done(Err(Fault::OutOfMemory))),
    }
}

/// Does what is asked.
#[inline(always)]
pub(crate) fn serve_slot<L: Ledger>(slot: Slot<L>, op: Op, alloc: Global) -> (Slot<L>, Out)
    ensures { Serves slot.value op result.0.value result.1 }
{
    let Some(loose) = slot.into_loose() else {
        return (Slot::closed(alloc), Out::NotOpen);
    };
    let mut engine = loose.into_box();
    match op {
        Op::Apply { port, event } => {
            let answered = engine.apply(port, event);
            (Slot::of(Loose::of(engine)), Out::Answered(answered))
        }
        Op::Show { port, serial } => {
            let shown = engine.show(port, &serial);
            (Slot::of(Loose::of(engine)), Out::Shown(shown))
        }
        Op::Count => {
            let count = engine.free();
            (Slot::of(Loose::of(engine)), Out::Counted(count))
        }
        Op::Tally { port } => {
            let counts = engine.tally(port);
            (Slot::of(Loose::of(engine)), Out::Tallied(counts))
        }
        Op::Entry { port, number } => {
            let kept = engine.entry(port, number);
            (Slot::of(Loose::of(engine)), Out::Kept(kept))
        }
        Op::Cut { port } => {
            let done = engine.cut(alloc, port);
            (Slot::of(Loose::of(engine)), Out::Done(done))
        }
        Op::Close => {
            drop(engine);
            (Slot::closed(alloc), Out::Done(Ok(())))
        }
    }
}
