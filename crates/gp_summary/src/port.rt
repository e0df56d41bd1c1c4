//! The line of a port: how it stands, and what was counted of it.
ghost use Rattle.std.specs.Prelude.{◌≡◌, ◌++◌, OnOk};
ghost use Rattle.std.specs.List.{flat_map};
ghost use Rattle.gp_summary.specs.Text as spec;

use crate::form::SummaryForm;
use crate::pieces::{KINDS, push_alarms, push_count, push_end, push_field, push_number};
use gp_common::Common;
use gp_machine::Refusal;
use gp_port::PortCore;
use gp_tally::{PortCounts, REFUSAL_NUMBERS};
use std::alloc::AllocError;
use std::sync::ledger::Ledger;

/// The refusals, in the order in which they are told.
pub(crate) static REFUSALS: [Refusal; 14] = [
    Refusal::Stray,
    Refusal::Garbled,
    Refusal::WrongWindow,
    Refusal::NotAdmitted,
    Refusal::NoId,
    Refusal::NoLicence,
    Refusal::Busy,
    Refusal::NotActive,
    Refusal::NotOperating,
    Refusal::PendingAlloc,
    Refusal::AllocFull,
    Refusal::NotHeld,
    Refusal::NoAlloc,
    Refusal::AlreadySearching,
];

/// Appends what a port does for all units, as text.
fn push_common_text(out: &mut Vec<u8>, common: Common) -> Result<(), AllocError>
    ensures { OnOk result (out.new.items ≡ out.old.items ++ spec.common_text common) }
{
    match common {
        Common::Standby => out.extend_from_slice(b", standby"),
        Common::Acquisition(windows) => {
            out.extend_from_slice(b", acquisition ")?;
            push_number(out, u64::from(windows))
        }
        Common::Measuring => out.extend_from_slice(b", measuring"),
    }
}

/// The same as JSON.
fn push_common_object(out: &mut Vec<u8>, common: Common) -> Result<(), AllocError>
    ensures { OnOk result (out.new.items ≡ out.old.items ++ spec.common_object common) }
{
    match common {
        Common::Standby => out.extend_from_slice(b",\"common\":\"standby\",\"windows\":null"),
        Common::Acquisition(windows) => {
            let name = ",\"common\":\"acquisition\",\"windows\":";
            push_field(out, name, u64::from(windows))
        }
        Common::Measuring => out.extend_from_slice(b",\"common\":\"measuring\",\"windows\":null"),
    }
}

/// Appends how a port stands.
fn push_front(
    out: &mut Vec<u8>,
    form: SummaryForm,
    number: u8,
    units: u64,
    common: Common,
) -> Result<(), AllocError>
    ensures { OnOk result (out.new.items ≡ out.old.items ++ spec.port_front form number units common) }
{
    match form {
        SummaryForm::Text => {
            push_field(out, "port ", u64::from(number))?;
            push_field(out, ": units ", units)?;
            push_common_text(out, common)
        }
        SummaryForm::Json => {
            push_field(out, "{\"port\":", u64::from(number))?;
            push_field(out, ",\"units\":", units)?;
            push_common_object(out, common)
        }
    }
}

/// Appends what happened at a port.
pub(crate) fn push_events(
    out: &mut Vec<u8>,
    form: SummaryForm,
    counts: &PortCounts,
) -> Result<(), AllocError>
    ensures { OnOk result (out.new.items ≡ out.old.items ++ spec.events_told form counts.now) }
{
    match form {
        SummaryForm::Text => {
            push_field(out, ", frames ", counts.frames)?;
            push_field(out, ", bursts ", counts.bursts)?;
            push_field(out, ", commands ", counts.commands)
        }
        SummaryForm::Json => {
            push_field(out, ",\"frames\":", counts.frames)?;
            push_field(out, ",\"bursts\":", counts.bursts)?;
            push_field(out, ",\"commands\":", counts.commands)
        }
    }
}

/// Appends how often something was refused so.
fn push_refusal(
    out: &mut Vec<u8>,
    form: SummaryForm,
    counts: &[u64; REFUSAL_NUMBERS],
    refusal: Refusal,
) -> Result<(), AllocError>
    ensures { OnOk result (out.new.items ≡ out.old.items ++ spec.refusal_told form counts.now refusal) }
{
    let count = counts[usize::from(refusal.number())];
    push_count(out, form, "refused", refusal.name(), count)
}

/// Appends how often something was refused, by each of these refusals.
pub(crate) fn push_refusals(
    out: &mut Vec<u8>,
    form: SummaryForm,
    counts: &[u64; REFUSAL_NUMBERS],
    refusals: &[Refusal],
) -> Result<(), AllocError>
    ensures { OnOk result (out.new.items ≡ out.old.items ++ flat_map (spec.refusal_told form counts.now) refusals.now) }
{
    'refusals: for refusal in refusals {
        push_refusal(out, form, counts, *refusal)?;
    }
    Ok(())
}

/// Appends what was counted of a port.
fn push_counts(out: &mut Vec<u8>, form: SummaryForm, counts: &PortCounts) -> Result<(), AllocError>
    ensures { OnOk result (out.new.items ≡ out.old.items ++ spec.counts_told form counts.now) }
{
    push_events(out, form, counts)?;
    push_refusals(out, form, &counts.refusals, &REFUSALS)?;
    push_alarms(out, form, &counts.alarms, &KINDS)?;
    push_end(out, form)
}

/// Appends the line of a port.
pub(crate) fn push_port_line<L: Ledger>(
    out: &mut Vec<u8>,
    form: SummaryForm,
    number: u8,
    core: &PortCore<L>,
    counts: &PortCounts,
) -> Result<(), AllocError>
    ensures { OnOk result (out.new.items ≡ out.old.items ++ spec.port_line form number core.now counts.now) }
{
    push_front(out, form, number, core.rows() as u64, core.common())?;
    push_counts(out, form, counts)
}
