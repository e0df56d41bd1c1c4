//! The line of a unit: how it stands, and what was counted of it.
ghost use Rattle.std.specs.Prelude.{◌≡◌, ◌++◌, OnOk, codes};
ghost use Rattle.std.specs.List.{flat_map};
ghost use Rattle.gp_summary.specs.Text as spec;

use crate::form::SummaryForm;
use crate::pieces::{KINDS, push_alarms, push_end, push_field, push_if, push_or_null};
use crate::standing::{Standing, UnitState};
use gp_ploam::Serial;
use gp_serial::SerialText;
use gp_tally::UnitCounts;
use std::alloc::AllocError;

/// Gives the name of a state.
fn state_name(state: UnitState) -> &'static str
    ensures { result.now ≡ spec.state_name state }
{
    match state {
        UnitState::Ranging => "ranging",
        UnitState::Operating => "operating",
        UnitState::Disabled => "disabled",
        UnitState::Asking => "asking",
        UnitState::Gone => "gone",
    }
}

/// Appends a further Alloc-ID, if there is one, as text.
fn push_alloc_text(out: &mut Vec<u8>, slot: Option<(u16, bool)>) -> Result<(), AllocError>
    ensures { OnOk result (out.new.items ≡ out.old.items ++ spec.alloc_text slot) }
{
    let Some((alloc, leaving)) = slot else {
        return Ok(());
    };
    push_field(out, " ", u64::from(alloc))?;
    if leaving {
        out.extend_from_slice(b"!")?;
    }
    Ok(())
}

/// Appends each of these.
fn push_slots_text(out: &mut Vec<u8>, slots: &[Option<(u16, bool)>]) -> Result<(), AllocError>
    ensures { OnOk result (out.new.items ≡ out.old.items ++ flat_map spec.alloc_text slots.now) }
{
    'slots: for slot in slots {
        push_alloc_text(out, *slot)?;
    }
    Ok(())
}

/// Appends the further Alloc-IDs, as text.
fn push_allocs_text(out: &mut Vec<u8>, slots: &[Option<(u16, bool)>]) -> Result<(), AllocError>
    ensures { OnOk result (out.new.items ≡ out.old.items ++ spec.allocs_text slots.now) }
{
    let [first, ..] = slots else {
        return Ok(());
    };
    if first.is_some() {
        out.extend_from_slice(b", allocs")?;
    }
    push_slots_text(out, slots)
}

/// Appends whether an Alloc-ID is leaving.
fn push_leaving(out: &mut Vec<u8>, leaving: bool) -> Result<(), AllocError>
    ensures { OnOk result (out.new.items ≡ out.old.items ++ spec.leaving_object leaving) }
{
    if leaving {
        out.extend_from_slice(b",\"leaving\":true}")
    } else {
        out.extend_from_slice(b",\"leaving\":false}")
    }
}

/// Appends a further Alloc-ID, if there is one, as JSON, behind what stands before it.
fn push_alloc_object(
    out: &mut Vec<u8>,
    before: &str,
    slot: Option<(u16, bool)>,
) -> Result<(), AllocError>
    ensures { OnOk result (out.new.items ≡ out.old.items ++ spec.alloc_object before.now slot) }
{
    let Some((alloc, leaving)) = slot else {
        return Ok(());
    };
    out.extend_from_slice(before.as_bytes())?;
    push_field(out, "{\"alloc\":", u64::from(alloc))?;
    push_leaving(out, leaving)
}

/// Appends each of these behind a comma.
fn push_slots_object(out: &mut Vec<u8>, slots: &[Option<(u16, bool)>]) -> Result<(), AllocError>
    ensures { OnOk result (out.new.items ≡ out.old.items ++ flat_map (spec.alloc_object (codes ",")) slots.now) }
{
    'slots: for slot in slots {
        push_alloc_object(out, ",", *slot)?;
    }
    Ok(())
}

/// Appends the further Alloc-IDs, as JSON.
fn push_allocs_object(out: &mut Vec<u8>, slots: &[Option<(u16, bool)>]) -> Result<(), AllocError>
    ensures { OnOk result (out.new.items ≡ out.old.items ++ spec.allocs_object slots.now) }
{
    let [first, others @ ..] = slots else {
        return Ok(());
    };
    push_alloc_object(out, "", *first)?;
    push_slots_object(out, others)
}

/// Appends who a unit is, and what it does.
fn push_name(
    out: &mut Vec<u8>,
    form: SummaryForm,
    number: u8,
    serial: &Serial,
    state: UnitState,
) -> Result<(), AllocError>
    ensures { OnOk result (out.new.items ≡ out.old.items ++ spec.unit_name form number serial.now state) }
{
    match form {
        SummaryForm::Text => {
            out.extend_from_slice(b"unit ")?;
            out.extend_from_slice(SerialText::of(serial).as_bytes())?;
            out.extend_from_slice(b": ")?;
            out.extend_from_slice(state_name(state).as_bytes())
        }
        SummaryForm::Json => {
            push_field(out, "{\"port\":", u64::from(number))?;
            out.extend_from_slice(b",\"serial\":\"")?;
            out.extend_from_slice(SerialText::of(serial).as_bytes())?;
            out.extend_from_slice(b"\",\"state\":\"")?;
            out.extend_from_slice(state_name(state).as_bytes())?;
            out.extend_from_slice(b"\"")
        }
    }
}

/// Appends what a unit holds.
fn push_held(out: &mut Vec<u8>, form: SummaryForm, unit: &Standing) -> Result<(), AllocError>
    ensures { OnOk result (out.new.items ≡ out.old.items ++ spec.unit_held form unit.now) }
{
    match form {
        SummaryForm::Text => {
            push_if(out, ", onu ", unit.onu.map(u64::from))?;
            push_if(out, ", eqd ", unit.delay.map(u64::from))?;
            push_allocs_text(out, &unit.allocs)
        }
        SummaryForm::Json => {
            push_or_null(out, ",\"onu\":", unit.onu.map(u64::from))?;
            push_or_null(out, ",\"eqd\":", unit.delay.map(u64::from))?;
            out.extend_from_slice(b",\"alloc_list\":[")?;
            push_allocs_object(out, &unit.allocs)?;
            out.extend_from_slice(b"]")
        }
    }
}

/// Appends how often a unit was found, ranged and lost.
pub(crate) fn push_counted(
    out: &mut Vec<u8>,
    form: SummaryForm,
    unit: &UnitCounts,
    lost: u64,
) -> Result<(), AllocError>
    ensures { OnOk result (out.new.items ≡ out.old.items ++ spec.unit_counted form unit.now lost) }
{
    match form {
        SummaryForm::Text => {
            push_field(out, ", found ", unit.found)?;
            push_field(out, ", ranged ", unit.ranged)?;
            push_field(out, ", lost ", lost)
        }
        SummaryForm::Json => {
            push_field(out, ",\"found\":", unit.found)?;
            push_field(out, ",\"ranged\":", unit.ranged)?;
            push_field(out, ",\"lost\":", lost)
        }
    }
}

/// Appends when a unit was heard last, and how long its last activation took.
pub(crate) fn push_times(
    out: &mut Vec<u8>,
    form: SummaryForm,
    unit: &UnitCounts,
) -> Result<(), AllocError>
    ensures { OnOk result (out.new.items ≡ out.old.items ++ spec.unit_times form unit.now) }
{
    match form {
        SummaryForm::Text => {
            push_if(out, ", last frame ", unit.heard)?;
            push_if(out, ", took frames ", unit.took)
        }
        SummaryForm::Json => {
            push_or_null(out, ",\"last_frame\":", unit.heard)?;
            push_or_null(out, ",\"took_frames\":", unit.took)
        }
    }
}

/// Appends the line of a unit that stands so.
pub(crate) fn push_unit_line(
    out: &mut Vec<u8>,
    form: SummaryForm,
    number: u8,
    serial: &Serial,
    standing: &Standing,
    unit: &UnitCounts,
) -> Result<(), AllocError>
    ensures { OnOk result
        (out.new.items ≡ out.old.items ++ spec.unit_told form number serial.now standing.now unit.now) }
{
    push_name(out, form, number, serial, standing.state)?;
    push_held(out, form, standing)?;
    push_counted(out, form, unit, standing.lost)?;
    push_alarms(out, form, &unit.alarms, &KINDS)?;
    push_times(out, form, unit)?;
    push_end(out, form)
}
