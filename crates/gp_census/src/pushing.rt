//! `push_census`: a line of a port, and one of each unit in the order of their serial numbers. Where memory is refused,
//! nothing is appended. `push_front`: what is known of one unit, for lines that go on with other counts.
ghost use Rattle.std.specs.Prelude.{◌≡◌, ◌++◌, OnOk, OnErr};
ghost use Rattle.std.specs.List.{flat_map};
ghost use Rattle.std.specs.FinMap as map;
ghost use Rattle.gp_census.specs.Text as spec;

use crate::census::Census;
use crate::sighting::Sighting;
use crate::{json, text};
use gp_ploam::Serial;
use gp_watch::PortWatch;
use std::alloc::AllocError;

/// How a census is told.
#[derive(Clone, Copy, Debug, PartialEq, Eq)]
pub enum CensusForm {
    /// A line of text for the port, and one for each unit.
    Text,
    /// A JSON object for each, on a line of its own.
    Json,
}

/// Appends the line of a port.
fn push_port(
    out: &mut Vec<u8>,
    form: CensusForm,
    port: u8,
    census: &Census,
) -> Result<(), AllocError>
    ensures { OnOk result (out.new.items ≡ out.old.items ++ spec.port_line form port census.now) }
{
    match form {
        CensusForm::Text => text::push_port(out, port, census),
        CensusForm::Json => json::push_port(out, port, census),
    }
}

/// Appends a unit and what is known of it, without what was counted: as text up to its Alloc-IDs, as JSON an object
/// that isn't closed. Where memory is refused, a part of it may be appended.
pub fn push_front(
    out: &mut Vec<u8>,
    form: CensusForm,
    port: u8,
    watch: &PortWatch,
    serial: &Serial,
    unit: &Sighting,
) -> Result<(), AllocError>
    ensures { OnOk result (out.new.items ≡ out.old.items
        ++ spec.front_line form port watch.now (serial.now, unit.now)) }
{
    match form {
        CensusForm::Text => text::push_front(out, watch, serial, unit),
        CensusForm::Json => json::push_front(out, port, watch, serial, unit),
    }
}

/// Appends the line of a unit.
fn push_unit(
    out: &mut Vec<u8>,
    form: CensusForm,
    port: u8,
    watch: &PortWatch,
    serial: &Serial,
    unit: &Sighting,
) -> Result<(), AllocError>
    ensures { OnOk result (out.new.items ≡ out.old.items
        ++ spec.unit_line form port watch.now (serial.now, unit.now)) }
{
    match form {
        CensusForm::Text => text::push_unit(out, watch, serial, unit),
        CensusForm::Json => json::push_unit(out, port, watch, serial, unit),
    }
}

/// Appends the line of each unit.
fn push_units(
    out: &mut Vec<u8>,
    form: CensusForm,
    port: u8,
    watch: &PortWatch,
    census: &Census,
) -> Result<(), AllocError>
    ensures { OnOk result (out.new.items ≡ out.old.items
        ++ flat_map (spec.unit_line form port watch.now) (map.entries census.now.units)) }
{
    for (serial, unit) in census.units().iter() {
        push_unit(out, form, port, watch, serial, unit)?;
    }
    Ok(())
}

/// Appends a line of the port, and a line of each unit of which something was counted, in the order of their serial
/// numbers: its counts, and what is known of it now. Times are told in milliseconds as text, and in nanoseconds as
/// JSON.
///
/// The lines are gathered first. Where memory is refused, nothing is appended.
#[tactic(auto, unfolding(crate::specs::Text::told_census))]
pub fn push_census(
    out: &mut Vec<u8>,
    form: CensusForm,
    port: u8,
    watch: &PortWatch,
    census: &Census,
) -> Result<(), AllocError>
    ensures ok { OnOk result (out.new.items ≡ out.old.items ++ spec.told_census form port watch.now census.now) }
    ensures same { OnErr result (out.new.items ≡ out.old.items) }
{
    let mut lines = Vec::new(*out.allocator());
    push_port(&mut lines, form, port, census)?;
    push_units(&mut lines, form, port, watch, census)?;
    out.extend_from_slice(&lines)
}
