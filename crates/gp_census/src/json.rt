//! A port and a unit as JSON, an object on a line of its own: what is counted, and what is known.
ghost use Rattle.std.specs.Prelude.{◌≡◌, ◌++◌, OnOk};
ghost use Rattle.gp_census.specs.Text as spec;

use crate::census::Census;
use crate::pieces::{push_allocs, push_field, push_or_null, state_name};
use crate::sighting::{PortCounts, Sighting};
use crate::told::UnitTold;
use gp_ploam::Serial;
use gp_serial::SerialText;
use gp_watch::PortWatch;
use std::alloc::AllocError;

/// Appends how many units there are, and how much was said.
fn push_port_front(
    out: &mut Vec<u8>,
    port: u8,
    units: u64,
    counts: PortCounts,
) -> Result<(), AllocError>
    ensures { OnOk result (out.new.items ≡ out.old.items ++ spec.port_object_front port units counts) }
{
    push_field(out, "{\"port\":", u64::from(port))?;
    push_field(out, ",\"units\":", units)?;
    push_field(out, ",\"messages\":", counts.messages)?;
    push_field(out, ",\"up\":", counts.up)
}

/// Appends how many windows were opened, and what was garbled.
fn push_port_rest(out: &mut Vec<u8>, counts: PortCounts) -> Result<(), AllocError>
    ensures { OnOk result (out.new.items ≡ out.old.items ++ spec.port_object_rest counts) }
{
    push_field(out, ",\"grants\":", counts.grants)?;
    push_field(out, ",\"garbled_down\":", counts.garbled_down)?;
    push_field(out, ",\"garbled_up\":", counts.garbled_up)?;
    out.extend_from_slice(b"}\n")
}

/// Appends the object of a port.
pub(crate) fn push_port(out: &mut Vec<u8>, port: u8, census: &Census) -> Result<(), AllocError>
    ensures { OnOk result (out.new.items ≡ out.old.items ++ spec.port_object port census.now) }
{
    push_port_front(out, port, census.count(), census.port())?;
    push_port_rest(out, census.port())
}

/// Appends who a unit is, and what it does.
fn push_name(
    out: &mut Vec<u8>,
    port: u8,
    serial: &Serial,
    told: &UnitTold,
) -> Result<(), AllocError>
    ensures { OnOk result (out.new.items ≡ out.old.items ++ spec.object_name port serial.now told.now.state) }
{
    push_field(out, "{\"port\":", u64::from(port))?;
    out.extend_from_slice(b",\"serial\":\"")?;
    out.extend_from_slice(SerialText::of(serial).as_bytes())?;
    out.extend_from_slice(b"\",\"state\":\"")?;
    out.extend_from_slice(state_name(told.state).as_bytes())?;
    out.extend_from_slice(b"\"")
}

/// Appends what a unit holds.
fn push_held(
    out: &mut Vec<u8>,
    watch: &PortWatch,
    onu: Option<u8>,
    delay: Option<u32>,
) -> Result<(), AllocError>
    ensures { OnOk result (out.new.items ≡ out.old.items ++ spec.object_held watch.now onu delay) }
{
    push_or_null(out, ",\"onu\":", onu.map(u64::from))?;
    push_or_null(out, ",\"eqd\":", delay.map(u64::from))?;
    out.extend_from_slice(b",\"allocs\":[")?;
    push_allocs(out, watch, onu, "", ",")?;
    out.extend_from_slice(b"]")
}

/// Appends what is known of a unit.
pub(crate) fn push_front(
    out: &mut Vec<u8>,
    port: u8,
    watch: &PortWatch,
    serial: &Serial,
    unit: &Sighting,
) -> Result<(), AllocError>
    ensures { OnOk result (out.new.items ≡ out.old.items ++ spec.object_front port watch.now serial.now unit.now) }
{
    let told = UnitTold::of(watch, serial, unit);
    push_name(out, port, serial, &told)?;
    push_held(out, watch, told.onu, told.delay)
}

/// Appends what was counted of a unit.
fn push_counts(out: &mut Vec<u8>, unit: &Sighting) -> Result<(), AllocError>
    ensures { OnOk result (out.new.items ≡ out.old.items ++ spec.object_counts unit.now) }
{
    push_field(out, ",\"asked\":", unit.asked)?;
    push_field(out, ",\"assigned\":", unit.assigned)?;
    push_field(out, ",\"ranged\":", unit.ranged)?;
    push_field(out, ",\"lost\":", unit.lost)?;
    push_field(out, ",\"answers\":", unit.answers)?;
    push_or_null(out, ",\"last_ns\":", unit.heard_last)?;
    push_or_null(out, ",\"took_ns\":", unit.took)?;
    out.extend_from_slice(b"}\n")
}

/// Appends the object of a unit.
pub(crate) fn push_unit(
    out: &mut Vec<u8>,
    port: u8,
    watch: &PortWatch,
    serial: &Serial,
    unit: &Sighting,
) -> Result<(), AllocError>
    ensures { OnOk result (out.new.items ≡ out.old.items ++ spec.unit_object port watch.now serial.now unit.now) }
{
    push_front(out, port, watch, serial, unit)?;
    push_counts(out, unit)
}
