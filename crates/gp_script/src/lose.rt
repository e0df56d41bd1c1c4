//! The tables under `lose`: copies and bursts that don't arrive.
ghost use Rattle.std.specs.Prelude.{◌≡◌, OnOk};
ghost use Rattle.toml.specs.View.{table_view, items_view};
ghost use Rattle.gp_script.specs.Fault.{Sees, Walks};
ghost use Rattle.gp_script.specs.Lose as spec;
ghost use Rattle.gp_script.specs.View.{losses_view};

use crate::keys::{has_only, number_at};
use crate::place::{Key, Spot, TablePlace, Wanted};
use crate::script::ScriptLosses;
use crate::tables::LOSE_KEYS;
use crate::values::number_from_0;
use crate::walk::{TableFault, WalkError, no_table};
use std::alloc::{AllocError, Global};
use toml::{Table, Value};

/// What is lost on the way, by its number.
#[derive(Clone, Copy)]
enum Loss {
    /// A copy of a message, which reaches no unit.
    Copy(u64),
    /// A burst of a unit, which does not arrive.
    Burst(u64),
}

impl ScriptLosses {
    /// Loses this too.
    fn add(&mut self, loss: Loss) -> Result<(), AllocError>
        ensures { OnOk result (losses_view self.new ≡ spec.with_loss (losses_view self.old) loss) }
    {
        match loss {
            Loss::Copy(number) => self.copies.push(number)?,
            Loss::Burst(number) => self.bursts.push(number)?,
        }
        Ok(())
    }
}

/// Reads a table under `lose`, which names either a copy or a burst.
#[tactic(auto, unfolding(crate::specs::Lose::loss_of))]
fn loss_of(table: &Table) -> Result<Loss, TableFault<'_>>
    ensures { Sees (λ loss. loss) result (spec.loss_of (table_view table.now)) }
{
    has_only(table, &LOSE_KEYS)?;
    let copy = number_at(table, Key::Copy)?;
    let burst = number_at(table, Key::Burst)?;
    match (copy, burst) {
        (Some(number), None) => Ok(Loss::Copy(number_from_0(Key::Copy, number)?)),
        (None, Some(number)) => Ok(Loss::Burst(number_from_0(Key::Burst, number)?)),
        (Some(_), Some(_)) | (None, None) => {
            Err(TableFault::Unmet(Spot::Table, Wanted::OneLoss))
        },
    }
}

/// Reads the tables under `lose`.
#[tactic(auto, unfolding(crate::specs::Lose::losses_from))]
pub(crate) fn losses_of(alloc: Global, tables: &[Value]) -> Result<ScriptLosses, WalkError<'_>>
    ensures { Walks losses_view result (spec.losses_from 0 spec.no_losses (items_view tables.now)) }
{
    let mut losses = ScriptLosses {
        copies: Vec::new(alloc),
        bursts: Vec::new(alloc),
    };
    let mut place = 0;
    'tables: for value in tables {
        let Some(table) = value.as_table() else {
            return Err(no_table(Key::Lose, place));
        };
        let loss = match loss_of(table) {
            Ok(loss) => loss,
            Err(fault) => return Err(WalkError::Inside(TablePlace::Lose(place), fault)),
        };
        losses.add(loss)?;
        place += 1;
    }
    Ok(losses)
}
