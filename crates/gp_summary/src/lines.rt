//! The lines of a port with its units, of all ports, and of the licences.
ghost use Rattle.std.specs.Prelude.{◌≡◌, ◌++◌, OnOk};
ghost use Rattle.std.specs.FinMap.{entries};
ghost use Rattle.std.specs.List.{flat_map};
ghost use Rattle.gp_summary.specs.Text as spec;

use crate::form::SummaryForm;
use crate::pieces::{push_end, push_field};
use crate::port::push_port_line;
use crate::standing::Standing;
use crate::unit::push_unit_line;
use gp_ploam::Serial;
use gp_port::PortCore;
use gp_tally::{PortTally, UnitCounts, Units};
use std::alloc::AllocError;
use std::sync::ledger::Ledger;

/// Appends the line of a unit.
fn push_unit<L: Ledger>(
    out: &mut Vec<u8>,
    form: SummaryForm,
    number: u8,
    core: &PortCore<L>,
    serial: &Serial,
    unit: &UnitCounts,
) -> Result<(), AllocError>
    ensures { OnOk result (out.new.items
        ≡ out.old.items ++ spec.unit_line form number core.now (serial.now, unit.now)) }
{
    let standing = Standing::of(core, serial, unit.found);
    push_unit_line(out, form, number, serial, &standing, unit)
}

/// Appends the lines of units.
fn push_units<L: Ledger>(
    out: &mut Vec<u8>,
    form: SummaryForm,
    number: u8,
    core: &PortCore<L>,
    units: &Units,
) -> Result<(), AllocError>
    ensures { OnOk result
        (out.new.items ≡ out.old.items ++ flat_map (spec.unit_line form number core.now) (entries units.now)) }
{
    for (serial, unit) in units.iter() {
        push_unit(out, form, number, core, serial, unit)?;
    }
    Ok(())
}

/// Appends the lines of a port and of its units: of each of which something was counted, in the order of their serial
/// numbers. Where memory is refused, a part of them may be appended.
#[tactic(auto, unfolding(crate::specs::Text::port_lines))]
pub(crate) fn push_port<L: Ledger>(
    out: &mut Vec<u8>,
    form: SummaryForm,
    number: u8,
    core: &PortCore<L>,
    tally: &PortTally,
) -> Result<(), AllocError>
    ensures { OnOk result (out.new.items ≡ out.old.items ++ spec.port_lines form number core.now tally.now) }
{
    push_port_line(out, form, number, core, tally.counts())?;
    push_units(out, form, number, core, tally.units())
}

/// Appends how many licences are free, and how many units have.
fn push_licences_told(
    out: &mut Vec<u8>,
    form: SummaryForm,
    free: u64,
    used: u64,
) -> Result<(), AllocError>
    ensures { OnOk result (out.new.items ≡ out.old.items ++ spec.licences_told form free used) }
{
    match form {
        SummaryForm::Text => {
            push_field(out, "licences: free ", free)?;
            push_field(out, ", in use ", used)?;
            push_end(out, form)
        }
        SummaryForm::Json => {
            push_field(out, "{\"free\":", free)?;
            push_field(out, ",\"in_use\":", used)?;
            push_end(out, form)
        }
    }
}

/// Appends the line of the licences, of which so many are free. Where memory is refused, a part of it may be appended.
pub(crate) fn push_licences(
    out: &mut Vec<u8>,
    form: SummaryForm,
    free: u32,
    licences: u32,
) -> Result<(), AllocError>
    ensures { OnOk result (out.new.items ≡ out.old.items ++ spec.licences_line form free licences) }
{
    let used = licences.saturating_sub(free);
    push_licences_told(out, form, u64::from(free), u64::from(used))
}
