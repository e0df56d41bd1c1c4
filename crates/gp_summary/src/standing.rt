//! How a unit stands at the end, by what its port knows of it.
ghost use Rattle.std.specs.Prelude.{◌≡◌};
ghost use Rattle.gp_summary.specs.Standing as spec;

use gp_machine::Phase;
use gp_ploam::Serial;
use gp_port::{PortCore, RowView};
use std::sync::ledger::Ledger;

/// What a unit does.
#[derive(Clone, Copy)]
pub(crate) enum UnitState {
    /// It is active, and not ranged yet.
    Ranging,
    /// It is active, and ranged.
    Operating,
    /// It may not be activated for now.
    Disabled,
    /// It isn't active, and was never found.
    Asking,
    /// It isn't active, but was found.
    Gone,
}

/// What is told of a unit besides its counts.
#[derive(Clone, Copy)]
pub(crate) struct Standing {
    pub(crate) state: UnitState,
    /// Its ONU-ID.
    pub(crate) onu: Option<u8>,
    /// Its equalization delay, in bit times.
    pub(crate) delay: Option<u32>,
    /// Its further Alloc-IDs, each with whether it is leaving; None after the last.
    pub(crate) allocs: [Option<(u16, bool)>; 8],
    /// How often it was lost.
    pub(crate) lost: u64,
}

/// Gives what an active unit does.
fn phase_state(phase: &Phase) -> UnitState
    ensures { result ≡ spec.phase_state phase.now }
{
    match phase {
        Phase::Ranging { .. } => UnitState::Ranging,
        Phase::Operating { .. } => UnitState::Operating,
    }
}

/// Gives its equalization delay, once it operates.
fn phase_delay(phase: &Phase) -> Option<u32>
    ensures { result ≡ spec.phase_delay phase.now }
{
    match *phase {
        Phase::Ranging { .. } => None,
        Phase::Operating { eqd, .. } => Some(eqd),
    }
}

/// Gives what a unit does that isn't active, and was found so often.
fn inactive_state(disabled: bool, found: u64) -> UnitState
    ensures { result ≡ spec.inactive_state disabled found }
{
    if disabled {
        UnitState::Disabled
    } else if found == 0 {
        UnitState::Asking
    } else {
        UnitState::Gone
    }
}

/// Gives how a unit stands, by what its port shows of it.
fn standing_by(row: &Option<RowView>, disabled: bool, found: u64) -> Standing
    ensures { result ≡ spec.standing_by row.now disabled found }
{
    match row {
        None => Standing {
            state: inactive_state(disabled, found),
            onu: None,
            delay: None,
            allocs: [None; 8],
            lost: found,
        },
        Some(row) => Standing {
            state: phase_state(&row.phase),
            onu: Some(row.onu),
            delay: phase_delay(&row.phase),
            allocs: row.allocs,
            lost: found.saturating_sub(1),
        },
    }
}

impl Standing {
    /// Gives how a unit stands that was found so often.
    pub(crate) fn of<L: Ledger>(core: &PortCore<L>, serial: &Serial, found: u64) -> Standing
        ensures { result ≡ spec.standing_of core.now serial.now found }
    {
        standing_by(&core.row_of(serial), core.is_disabled(serial), found)
    }
}
