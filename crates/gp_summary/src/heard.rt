//! The lines of a trace alone: what was counted, and how its units stand as they were heard on the fibre.
ghost use Rattle.std.specs.Prelude.{◌≡◌, ◌<◌, ◌≤◌, ◌++◌, ℕ, List, IfOk, OnOk, length};
ghost use Rattle.std.specs.FinMap.{entries, get};
ghost use Rattle.std.specs.List.{flat_map};
ghost use Rattle.gp_machine.specs.Config.{max_ports};
ghost use Rattle.gp_census.specs.Census.{sighting_of};
ghost use Rattle.gp_census.specs.Text.{front_line};
ghost use Rattle.gp_audit.specs.Port.{port_of};
ghost use Rattle.gp_summary.specs.Heard as spec;

use crate::form::SummaryForm;
use crate::pieces::{KINDS, push_alarms, push_end, push_field};
use crate::port::{REFUSALS, push_events, push_refusals};
use crate::unit::{push_counted, push_times};
use gp_audit::Listener;
use gp_census::{Census, CensusForm, Sighting, push_front};
use gp_ploam::Serial;
use gp_tally::{Counter, PortCounts, PortTally, UnitCounts, Units};
use gp_watch::PortWatch;
use std::alloc::{AllocError, Global};

/// Gives how many of these units hold an ONU-ID.
fn holders(watch: &PortWatch, units: &Units) -> u64
    ensures { result ≡ spec.holders watch.now units.now }
{
    units
        .iter()
        .filter(|(serial, _)| watch.onu_of(serial).is_some())
        .count() as u64
}

/// Appends the number of a port, and how many of its units hold an ONU-ID.
fn push_port_front(
    out: &mut Vec<u8>,
    form: SummaryForm,
    number: u8,
    units: u64,
) -> Result<(), AllocError>
    ensures { OnOk result (out.new.items ≡ out.old.items ++ spec.heard_front form number units) }
{
    match form {
        SummaryForm::Text => {
            push_field(out, "port ", u64::from(number))?;
            push_field(out, ": units ", units)
        }
        SummaryForm::Json => {
            push_field(out, "{\"port\":", u64::from(number))?;
            push_field(out, ",\"units\":", units)
        }
    }
}

/// Appends the line of a port.
fn push_port_line(
    out: &mut Vec<u8>,
    form: SummaryForm,
    number: u8,
    units: u64,
    counts: &PortCounts,
) -> Result<(), AllocError>
    ensures { OnOk result (out.new.items ≡ out.old.items ++ spec.heard_port_line form number units counts.now) }
{
    push_port_front(out, form, number, units)?;
    push_events(out, form, counts)?;
    push_refusals(out, form, &counts.refusals, &REFUSALS)?;
    push_alarms(out, form, &counts.alarms, &KINDS)?;
    push_end(out, form)
}

/// Gives how what is known of a unit is told.
fn census_form(form: SummaryForm) -> CensusForm
    ensures { result ≡ spec.census_form form }
{
    match form {
        SummaryForm::Text => CensusForm::Text,
        SummaryForm::Json => CensusForm::Json,
    }
}

/// Appends what is known of a unit.
fn push_known(
    out: &mut Vec<u8>,
    form: SummaryForm,
    number: u8,
    watch: &PortWatch,
    serial: &Serial,
    heard: &Sighting,
) -> Result<(), AllocError>
    ensures { OnOk result (out.new.items ≡ out.old.items
        ++ front_line (spec.census_form form) number watch.now (serial.now, heard.now)) }
{
    push_front(out, census_form(form), number, watch, serial, heard)
}

/// Appends the line of a unit that was heard so.
fn push_heard(
    out: &mut Vec<u8>,
    form: SummaryForm,
    number: u8,
    watch: &PortWatch,
    serial: &Serial,
    heard: &Sighting,
    unit: &UnitCounts,
) -> Result<(), AllocError>
    ensures { OnOk result (out.new.items ≡ out.old.items
        ++ spec.heard_unit form number watch.now serial.now heard.now unit.now) }
{
    push_known(out, form, number, watch, serial, heard)?;
    push_counted(out, form, unit, heard.lost)?;
    push_alarms(out, form, &unit.alarms, &KINDS)?;
    push_times(out, form, unit)?;
    push_end(out, form)
}

/// Appends the line of a unit.
fn push_unit_line(
    out: &mut Vec<u8>,
    form: SummaryForm,
    number: u8,
    watch: &PortWatch,
    census: &Census,
    serial: &Serial,
    unit: &UnitCounts,
) -> Result<(), AllocError>
    ensures { OnOk result (out.new.items ≡ out.old.items
        ++ spec.heard_unit_line form number watch.now census.now (serial.now, unit.now)) }
{
    let heard = census.sighting(serial);
    push_heard(out, form, number, watch, serial, &heard, unit)
}

/// Appends the lines of units.
fn push_units(
    out: &mut Vec<u8>,
    form: SummaryForm,
    number: u8,
    watch: &PortWatch,
    census: &Census,
    units: &Units,
) -> Result<(), AllocError>
    ensures { OnOk result (out.new.items ≡ out.old.items
        ++ flat_map (spec.heard_unit_line form number watch.now census.now) (entries units.now)) }
{
    for (serial, unit) in units.iter() {
        push_unit_line(out, form, number, watch, census, serial, unit)?;
    }
    Ok(())
}

/// Tells whether no line told of a port.
fn is_silent(counts: &PortCounts) -> bool
    ensures { result ≡ spec.is_silent counts.now }
{
    counts.frames == 0 && counts.bursts == 0 && counts.commands == 0
}

/// Appends the lines of a port and of its units, if a line told of it.
#[tactic(auto, unfolding(crate::specs::Heard::heard_lines))]
fn push_port(
    out: &mut Vec<u8>,
    form: SummaryForm,
    number: u8,
    watch: &PortWatch,
    census: &Census,
    tally: &PortTally,
) -> Result<(), AllocError>
    ensures { OnOk result (out.new.items ≡ out.old.items
        ++ spec.heard_lines form number watch.now census.now tally.now) }
{
    if is_silent(tally.counts()) {
        return Ok(());
    }
    let units = holders(watch, tally.units());
    push_port_line(out, form, number, units, tally.counts())?;
    push_units(out, form, number, watch, census, tally.units())
}

/// Appends the lines of a port as it was heard.
fn push_listened(
    out: &mut Vec<u8>,
    form: SummaryForm,
    number: u8,
    listener: &Listener,
    tally: &PortTally,
) -> Result<(), AllocError>
    requires { number < max_ports }
    ensures { OnOk result (out.new.items ≡ out.old.items ++ spec.heard_lines form number
        (port_of listener.now.ports number).watch (port_of listener.now.ports number).census tally.now) }
{
    let watch = listener.watch(number);
    let census = listener.census(number);
    push_port(out, form, number, watch, census, tally)
}

/// Appends the lines of all ports that were counted.
fn push_ports(
    out: &mut Vec<u8>,
    form: SummaryForm,
    listener: &Listener,
    tallies: &[PortTally],
) -> Result<(), AllocError>
    requires { length tallies.now ≤ max_ports }
    ensures { OnOk result ((text : List ℕ)
        × spec.HeardText form (length tallies.now) listener.now.ports tallies.now text
        × (out.new.items ≡ out.old.items ++ text)) }
{
    'ports: for (port, tally) in tallies.iter().enumerate() {
        push_listened(out, form, port as u8, listener, tally)?;
    }
    Ok(())
}

/// Gives the lines of what was counted and heard of a trace: of each port of which a line told, and of its units. How
/// they stand is told by what was said on the fibre; what a port does for all units, and how many licences are free,
/// isn't said there.
pub fn heard_summary(
    alloc: Global,
    form: SummaryForm,
    counter: &Counter,
    listener: &Listener,
) -> Result<Vec<u8>, AllocError>
    requires { length counter.now.ports ≤ max_ports }
    ensures { IfOk result (λ text. spec.TellsHeard form counter.now.mask counter.now.taken
        (length counter.now.ports) listener.now.ports text.items) }
{
    let tallies = counter.ports()?;
    let mut text = Vec::new(alloc);
    push_ports(&mut text, form, listener, tallies)?;
    Ok(text)
}
