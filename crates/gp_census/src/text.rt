//! A port and a unit as a line of text: what is counted, and what is known.
ghost use Rattle.std.specs.Prelude.{◌≡◌, ◌++◌, OnOk};
ghost use Rattle.gp_census.specs.Text as spec;

use crate::census::Census;
use crate::pieces::{push_allocs, push_field, push_if, push_time_if, state_name};
use crate::sighting::{PortCounts, Sighting};
use crate::told::UnitTold;
use gp_ploam::Serial;
use gp_serial::SerialText;
use gp_watch::PortWatch;
use std::alloc::AllocError;

/// Appends how many units there are, and how much was said.
fn push_port_front(
    out: &mut Vec<u8>,
    port: u8,
    units: u64,
    counts: PortCounts,
) -> Result<(), AllocError>
    ensures { OnOk result (out.new.items ≡ out.old.items ++ spec.port_front port units counts) }
{
    push_field(out, "port ", u64::from(port))?;
    push_field(out, ": units ", units)?;
    push_field(out, ", messages ", counts.messages)?;
    push_field(out, ", codes up ", counts.up)
}

/// Appends how many windows were opened, and what was garbled.
fn push_port_rest(out: &mut Vec<u8>, counts: PortCounts) -> Result<(), AllocError>
    ensures { OnOk result (out.new.items ≡ out.old.items ++ spec.port_rest counts) }
{
    push_field(out, ", grants ", counts.grants)?;
    push_field(out, ", garbled ", counts.garbled_down)?;
    push_field(out, " down ", counts.garbled_up)?;
    out.extend_from_slice(b" up\n")
}

/// Appends the line of a port.
pub(crate) fn push_port(out: &mut Vec<u8>, port: u8, census: &Census) -> Result<(), AllocError>
    ensures { OnOk result (out.new.items ≡ out.old.items ++ spec.port_text port census.now) }
{
    push_port_front(out, port, census.count(), census.port())?;
    push_port_rest(out, census.port())
}

/// Appends what is known of a unit.
pub(crate) fn push_front(
    out: &mut Vec<u8>,
    watch: &PortWatch,
    serial: &Serial,
    unit: &Sighting,
) -> Result<(), AllocError>
    ensures { OnOk result (out.new.items ≡ out.old.items ++ spec.unit_front watch.now serial.now unit.now) }
{
    let told = UnitTold::of(watch, serial, unit);
    out.extend_from_slice(b"unit ")?;
    out.extend_from_slice(SerialText::of(serial).as_bytes())?;
    out.extend_from_slice(b": ")?;
    out.extend_from_slice(state_name(told.state).as_bytes())?;
    push_if(out, ", onu ", told.onu.map(u64::from))?;
    push_if(out, ", eqd ", told.delay.map(u64::from))?;
    push_allocs(out, watch, told.onu, ", allocs ", " ")
}

/// Appends when a unit was heard last, and how long it took.
fn push_times(out: &mut Vec<u8>, unit: &Sighting) -> Result<(), AllocError>
    ensures { OnOk result (out.new.items ≡ out.old.items ++ spec.unit_times unit.now) }
{
    push_time_if(out, ", last ", unit.heard_last)?;
    push_time_if(out, ", took ", unit.took)?;
    out.extend_from_slice(b"\n")
}

/// Appends what was counted of a unit.
fn push_counts(out: &mut Vec<u8>, unit: &Sighting) -> Result<(), AllocError>
    ensures { OnOk result (out.new.items ≡ out.old.items ++ spec.unit_counts unit.now) }
{
    push_field(out, ", asked ", unit.asked)?;
    push_field(out, ", assigned ", unit.assigned)?;
    push_field(out, ", ranged ", unit.ranged)?;
    push_field(out, ", lost ", unit.lost)?;
    push_field(out, ", answers ", unit.answers)?;
    push_times(out, unit)
}

/// Appends the line of a unit.
pub(crate) fn push_unit(
    out: &mut Vec<u8>,
    watch: &PortWatch,
    serial: &Serial,
    unit: &Sighting,
) -> Result<(), AllocError>
    ensures { OnOk result (out.new.items ≡ out.old.items ++ spec.unit_text watch.now serial.now unit.now) }
{
    push_front(out, watch, serial, unit)?;
    push_counts(out, unit)
}
