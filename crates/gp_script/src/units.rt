//! The tables under `unit`: the simulated units on the fibre.
ghost use Rattle.std.specs.Prelude.{◌≡◌, [], IfOk, IsTrue, All, length, vec_len};
ghost use Rattle.toml.specs.View.{table_view, items_view};
ghost use Rattle.gp_script.specs.Fault.{Sees, Walks};
ghost use Rattle.gp_script.specs.Unit as spec;

use crate::keys::{has_only, needed_number, needed_text, number_at};
use crate::place::{Key, TablePlace};
use crate::script::ScriptUnit;
use crate::tables::UNIT_KEYS;
use crate::values::{in_range, in_range_or, serial_of};
use crate::walk::{TableFault, WalkError, no_table};
use gp_onu::{MAX_DELAY, MAX_RANDOM_DELAY};
use std::alloc::Global;
use toml::{Table, Value};

/// Reads a unit table.
#[tactic(auto, unfolding(crate::specs::Unit::unit_of))]
fn unit_of(table: &Table) -> Result<ScriptUnit, TableFault<'_>>
    ensures value { Sees (λ e. e) result (spec.unit_of (table_view table.now)) }
    ensures limits { IfOk result (λ unit. IsTrue (spec.is_unit_within_limits unit)) }
{
    has_only(table, &UNIT_KEYS)?;
    let serial = needed_text(table, Key::Serial)?;
    let delay = needed_number(table, Key::Delay)?;
    let random = number_at(table, Key::Random)?;
    let serial = serial_of(serial)?;
    let delay = in_range(Key::Delay, 0..=MAX_DELAY, delay)?;
    let random = in_range_or(Key::Random, 0, 0..=u32::from(MAX_RANDOM_DELAY), random)? as u16;
    Ok(ScriptUnit {
        serial,
        delay,
        random,
    })
}

/// Reads the unit tables.
#[tactic(auto, unfolding(crate::specs::Unit::units_from))]
pub(crate) fn units_of(alloc: Global, tables: &[Value]) -> Result<Vec<ScriptUnit>, WalkError<'_>>
    ensures value { Walks (λ v. v.items) result (spec.units_from [] (items_view tables.now)) }
    ensures count { IfOk result (λ v. vec_len v ≡ length tables.now) }
    ensures limits { IfOk result (λ v. All (λ unit. IsTrue (spec.is_unit_within_limits unit)) v.items) }
{
    let mut units = Vec::with_capacity(alloc, tables.len())?;
    'tables: for value in tables {
        let Some(table) = value.as_table() else {
            return Err(no_table(Key::Unit, units.len()));
        };
        let unit = match unit_of(table) {
            Ok(unit) => unit,
            Err(fault) => return Err(WalkError::Inside(TablePlace::Unit(units.len()), fault)),
        };
        units.push_reserved(unit);
    }
    Ok(units)
}
