//! Octets read as a script: first as a text, then as TOML, then table by table.
ghost use Rattle.std.specs.Prelude.{◌≡◌, ℕ, List, [], Err, IfOk, IsTrue, false};
ghost use Rattle.std.specs.Str.{is_utf8};
ghost use Rattle.toml.specs.Parse.{parse_document};
ghost use Rattle.toml.specs.View.{table_view};
ghost use Rattle.gp_script.specs.Fault.{Gives, GivesPlaced, IsSyntax, Walks};
ghost use Rattle.gp_script.specs.Script.{script_of_table, script_of_bytes, script_of, script_or_mistake, storm_script_of, storm_script_or_mistake, text_of, table_or_mistake};
ghost use Rattle.gp_script.specs.Mistake.{without_place};
ghost use Rattle.gp_script.specs.Playable.{IsPlayable};
ghost use Rattle.gp_script.specs.Lose.{no_losses};
ghost use Rattle.gp_script.specs.View.{losses_view, script_view};

use crate::events::events_of;
use crate::fault::ScriptError;
use crate::lose::losses_of;
use crate::mistake::{Mistake, PlacedError, SyntaxMistake};
use crate::place::TablePlace;
use crate::ports::ports_of;
use crate::script::Script;
use crate::top::top_of;
use crate::units::units_of;
use crate::walk::{WalkError, owned};
use std::alloc::{AllocError, Global};
use toml::Table;
use toml::de::Error;

/// Reads what the tables say.
#[tactic(auto, unfolding(crate::specs::Script::script_of_table))]
fn read_table(alloc: Global, may_have_units: bool, table: &Table) -> Result<Script, WalkError<'_>>
    ensures value { Walks script_view result (script_of_table may_have_units (table_view table.now)) }
    ensures playable { IfOk result (λ s. IsPlayable (script_view s)) }
    ensures no_units { may_have_units ≡ false
        → IfOk result (λ s. (s.units.items ≡ []) × (losses_view s.losses ≡ no_losses)) }
{
    let top = match top_of(may_have_units, table) {
        Ok(top) => top,
        Err(fault) => return Err(WalkError::Inside(TablePlace::Top, fault)),
    };
    let ports = ports_of(alloc, top.mask, top.ports)?;
    let units = units_of(alloc, top.units)?;
    let losses = losses_of(alloc, top.losses)?;
    let events = events_of(alloc, top.port_count, top.unit_count, top.mask, top.events)?;
    Ok(Script {
        licences: top.licences,
        mask: top.mask,
        journal_limit: top.journal_limit,
        ports,
        units,
        losses,
        events,
    })
}

/// Gives the text that bytes are.
#[tactic(auto, using(crate::proofs::TextLemmas::utf8_yes, crate::proofs::TextLemmas::utf8_no))]
fn read_text(bytes: &[u8]) -> Result<&str, PlacedError>
    ensures value { GivesPlaced (λ s. s.now) result (text_of bytes.now) }
    ensures no_memory { result ≡ Err PlacedError.OutOfMemory → ⊥ }
{
    std::str::from_utf8(bytes).map_err(|_| PlacedError::Wrong(Mistake::NoText))
}

/// Tells the line and the column, both from 1, of the place behind these octets. A column counts characters.
fn line_and_column(before: &[u8]) -> (usize, usize) {
    let (mut line, mut column) = (1_usize, 1_usize);
    for octet in before {
        if *octet == b'\n' {
            line = line.saturating_add(1);
            column = 1;
        } else if *octet & 0xC0 != 0x80 {
            column = column.saturating_add(1);
        }
    }
    (line, column)
}

/// Tells where a text is no TOML, and why.
fn syntax_error(alloc: Global, text: &str, error: &Error) -> PlacedError
    ensures { IsSyntax result }
{
    let start = error.span().map_or(0, |span| span.start);
    let before = text.as_bytes().get(..start).unwrap_or(&[]);
    let (line, column) = line_and_column(before);
    match String::from_str(alloc, error.message()) {
        Ok(message) => PlacedError::Wrong(Mistake::NoToml(SyntaxMistake {
            line,
            column,
            message,
        })),
        Err(AllocError) => PlacedError::OutOfMemory,
    }
}

/// Reads the table that a text stands for.
fn parse_table(alloc: Global, text: &str) -> Result<Table, PlacedError>
    ensures { GivesPlaced table_view result (table_or_mistake (parse_document text.now)) }
{
    match toml::table_from_str(alloc, text) {
        Ok(table) => Ok(table),
        Err(error) if error.is_memory() => Err(PlacedError::OutOfMemory),
        Err(error) => Err(syntax_error(alloc, text, &error)),
    }
}

/// Reads what the bytes say as a script, with simulated units where it may have them.
#[tactic(auto, unfolding(crate::specs::Script::script_of_bytes))]
fn read_bytes(alloc: Global, may_have_units: bool, bytes: &[u8]) -> Result<Script, PlacedError>
    ensures value { GivesPlaced script_view result (script_of_bytes may_have_units bytes.now) }
    ensures memory_only_of_utf8 { result ≡ Err PlacedError.OutOfMemory → IsTrue (is_utf8 bytes.now) }
    ensures playable { IfOk result (λ s. IsPlayable (script_view s)) }
    ensures no_units { may_have_units ≡ false
        → IfOk result (λ s. (s.units.items ≡ []) × (losses_view s.losses ≡ no_losses)) }
{
    let text = read_text(bytes)?;
    let table = parse_table(alloc, text)?;
    match read_table(alloc, may_have_units, &table) {
        Ok(script) => Ok(script),
        Err(error) => Err(owned(alloc, error)),
    }
}

/// Reads what the bytes say as a script, or its first mistake, before any event runs: where it is wrong, and what is
/// wanted there.
///
/// A mistake that this tells is the fault that `read_script` tells: the place alone is more.
pub fn read_script_at(alloc: Global, bytes: &[u8]) -> Result<Script, PlacedError>
    ensures value { GivesPlaced script_view result (script_or_mistake bytes.now) }
    ensures memory_only_of_utf8 { result ≡ Err PlacedError.OutOfMemory → IsTrue (is_utf8 bytes.now) }
    ensures playable { IfOk result (λ s. IsPlayable (script_view s)) }
{
    read_bytes(alloc, true, bytes)
}

/// States that the fault which `read_script` tells of bytes is the mistake that `read_script_at` tells of them, without
/// its place.
#[tactic(auto, unfolding(crate::specs::Script::script_or_fault))]
pub fn faults_are_mistakes()
    ensures { (bytes : List ℕ) → script_of bytes ≡ without_place (script_or_mistake bytes) }
{}

/// States the same of what `read_storm_script` and `read_storm_script_at` tell.
#[tactic(auto, unfolding(crate::specs::Script::script_or_fault))]
pub fn storm_faults_are_mistakes()
    ensures { (bytes : List ℕ) → storm_script_of bytes ≡ without_place (storm_script_or_mistake bytes) }
{}

/// Reads what the bytes say as a script, or the first fault, before any event runs.
///
/// Of a script that is read, each number is within its range, each serial number is admitted once,
/// units stand beside one port alone, and each event names a port or a unit that is there.
#[tactic(auto, unfolding(crate::specs::Script::script_or_fault))]
pub fn read_script(alloc: Global, bytes: &[u8]) -> Result<Script, ScriptError>
    ensures value { Gives script_view result (script_of bytes.now) }
    ensures memory_only_of_utf8 { result ≡ Err ScriptError.OutOfMemory → IsTrue (is_utf8 bytes.now) }
    ensures playable { IfOk result (λ s. IsPlayable (script_view s)) }
{
    read_script_at(alloc, bytes).map_err(ScriptError::from)
}

/// Reads what the bytes say as a script for a storm, or its first mistake: where it is wrong, and what is wanted there.
///
/// A storm has no simulated units: a unit table is a mistake of the top, and so is a table of what is lost, as in any
/// script without units. A mistake that this tells is the fault that `read_storm_script` tells.
pub fn read_storm_script_at(alloc: Global, bytes: &[u8]) -> Result<Script, PlacedError>
    ensures value { GivesPlaced script_view result (storm_script_or_mistake bytes.now) }
    ensures memory_only_of_utf8 { result ≡ Err PlacedError.OutOfMemory → IsTrue (is_utf8 bytes.now) }
    ensures playable { IfOk result (λ s. IsPlayable (script_view s)) }
    ensures no_units { IfOk result (λ s. s.units.items ≡ []) }
    ensures nothing_lost { IfOk result (λ s. losses_view s.losses ≡ no_losses) }
{
    read_bytes(alloc, false, bytes)
}

/// Reads what the bytes say as a script for a storm, or the first fault, before any event runs.
///
/// A storm has no simulated units: a unit table is a fault of the top's shape, and so is a table of what is
/// lost, as in any script without units. All else is as in `read_script`.
#[tactic(auto, unfolding(crate::specs::Script::script_or_fault))]
pub fn read_storm_script(alloc: Global, bytes: &[u8]) -> Result<Script, ScriptError>
    ensures value { Gives script_view result (storm_script_of bytes.now) }
    ensures memory_only_of_utf8 { result ≡ Err ScriptError.OutOfMemory → IsTrue (is_utf8 bytes.now) }
    ensures playable { IfOk result (λ s. IsPlayable (script_view s)) }
    ensures no_units { IfOk result (λ s. s.units.items ≡ []) }
    ensures nothing_lost { IfOk result (λ s. losses_view s.losses ≡ no_losses) }
{
    read_storm_script_at(alloc, bytes).map_err(ScriptError::from)
}
