//! What C holds: sixteen octets, open or closed. Whatever is asked of an open one is asked of the chassis behind it; a
//! closed one answers so.
ghost use Rattle.std.specs.Prelude.{◌≡◌, ℕ, Option, Some, None};
ghost use Rattle.std.specs.contracts.impls.GlobalAllocator.TheImpl.{ghosts as global};
ghost use Rattle.std.specs.Coded.{coded_option};
ghost use Rattle.gp_chassis.specs.Core.{CoreState};
ghost use Rattle.gp_licence.specs.declared.ledger_parts.TheConstants.{MAX_LICENCES};
ghost use Rattle.gp_c.specs.Held.{held, engine_row};
ghost use Rattle.gp_c.specs.Serves.{Serves, Opens};
ghost use Rattle.gp_c.specs.Outs.{done_of};

use crate::engine::Engine;
use crate::op::{Op, Out};
use crate::slot::{Slot, open_slot, serve_slot};
use gp_chassis::ChassisConfig;
use gp_linear::NeverDropped;
use std::alloc::Global;
use std::marker::{Brand, Model};
use std::mem;
use std::sync::ledger::Blank;

/// What C holds: open, or closed, as one is that is all zeros. There is no `Drop`: a handle ends by `end`, which takes
/// a closed one alone, so no chassis is lost with it.
#[repr(C)]
pub struct Handle {
    at: *mut u8,
    is_open: u64,
    alloc: Global,
    ghost name: { ℕ },
    ghost parts: { ℕ },
    ghost value: { Option CoreState } by { coded_option (engine_row 0 0).coded },
}

impl NeverDropped for Handle {}

impl Model for Handle {
    ghost also_owns = { λ h. held (global.dealloc_token h.alloc) (engine_row h.name h.parts) h.is_open h.at h.value };
}

impl Handle {
    /// Makes a closed handle.
    #[inline(always)]
    pub(crate) fn closed(alloc: Global) -> Handle
        ensures { result.value ≡ None }
    {
        Handle {
            at: std::ptr::null_mut(),
            is_open: 0,
            alloc,
        }
    }

    /// Lets go of a closed handle.
    #[inline(always)]
    pub(crate) fn end(self)
        requires { self.value ≡ None }
    {
        let Handle {
            at: _,
            is_open: _,
            alloc: _,
        } = self;
    }

    /// Opens a chassis whose ledger is the blank.
    pub(crate) fn open(alloc: Global, blank: Blank, config: ChassisConfig) -> (Handle, Out)
        requires { blank.parts ≡ MAX_LICENCES }
        ensures { Opens config result.0.value (done_of result.1) }
    {
        let (slot, out) = open_slot::<Brand>(alloc, blank, config);
        let Slot { at, is_open, alloc } = slot;
        (
            Handle {
                at: at as *mut u8,
                is_open,
                alloc,
            },
            out,
        )
    }

    /// Does what is asked of the engine, whatever its ledger.
    #[inline(always)]
    pub(crate) fn serve(self, op: Op, global: Global) -> (Handle, Out)
        ensures { Serves self.value op result.0.value result.1 }
    {
        let Handle { at, is_open, alloc } = self;
        let slot = Slot {
            at: at as *mut Engine<Brand>,
            is_open,
            alloc,
        };
        let (slot, out) = serve_slot::<Brand>(slot, op, global);
        let Slot { at, is_open, alloc } = slot;
        (
            Handle {
                at: at as *mut u8,
                is_open,
                alloc,
            },
            out,
        )
    }
}

/// Does what is asked of the chassis behind a handle.
#[inline(always)]
pub(crate) fn ask(handle: &mut Handle, alloc: Global, op: Op) -> Out
    ensures { Serves handle.old.value op handle.new.value result }
{
    let (next, out) = mem::replace(handle, Handle::closed(alloc)).serve(op, alloc);
    mem::replace(handle, next).end();
    out
}
