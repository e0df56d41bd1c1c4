//! The tables under `event`: what happens, in the order in which it is to happen.
ghost use Rattle.std.specs.Prelude.{◌≡◌, ◌<◌, IfOk, All, length, vec_len};
ghost use Rattle.toml.specs.View.{table_view, items_view};
ghost use Rattle.gp_script.specs.Fault.{Sees, Walks};
ghost use Rattle.gp_script.specs.Event as spec;
ghost use Rattle.gp_script.specs.View.{NamesOneOf, NamesPort, NamesUnit};

use crate::command::command_event;
use crate::keys::{has_only, member, needed_bool, needed_number, needed_text, needs};
use crate::place::{Key, Spot, TablePlace, Wanted};
use crate::say::say_event;
use crate::script::ScriptEvent;
use crate::tables::EVENT_KEYS;
use crate::values::{delay_in, in_range, octets_of, place_in, port_in};
use crate::walk::{TableFault, WalkError, no_table};
use gp_ploam::Mask;
use std::alloc::Global;
use toml::{Table, Value};

/// Reads an event of so many frames. Each of these functions is given how many ports, or units, there are.
#[tactic(auto, unfolding(crate::specs::Event::frames_event))]
fn frames_event(ports: u8, table: &Table) -> Result<ScriptEvent, TableFault<'_>>
    ensures value { Sees (λ e. e) result (spec.frames_event ports (table_view table.now)) }
    ensures port { IfOk result (λ e. NamesPort ports e) }
{
    has_only(table, &[Key::Port, Key::Frames])?;
    let port = needed_number(table, Key::Port)?;
    let frames = needed_number(table, Key::Frames)?;
    let port = port_in(ports, port)?;
    let count = in_range(Key::Frames, 1..=1_000_000, frames)?;
    Ok(ScriptEvent::Frames { port, count })
}

/// Reads an event of thirteen octets that arrive.
#[tactic(auto, unfolding(crate::specs::Event::burst_event))]
fn burst_event(ports: u8, table: &Table) -> Result<ScriptEvent, TableFault<'_>>
    ensures value { Sees (λ e. e) result (spec.burst_event ports (table_view table.now)) }
    ensures port { IfOk result (λ e. NamesPort ports e) }
{
    has_only(table, &[Key::Port, Key::At, Key::Burst])?;
    let port = needed_number(table, Key::Port)?;
    let at = needed_number(table, Key::At)?;
    let burst = needed_text(table, Key::Burst)?;
    let port = port_in(ports, port)?;
    let at = delay_in(at)?;
    let bytes = octets_of(Key::Burst, burst)?;
    Ok(ScriptEvent::Burst { port, at, bytes })
}

/// Reads an event in which the light of a unit comes or goes, of a script that has units.
#[tactic(auto, unfolding(crate::specs::Event::light_event))]
fn light_event(units: u16, table: &Table) -> Result<ScriptEvent, TableFault<'_>>
    ensures value { Sees (λ e. e) result (spec.light_event units (table_view table.now)) }
    ensures unit { IfOk result (λ e. NamesUnit units e) }
{
    needs(Key::Light, Wanted::Units, units > 0)?;
    has_only(table, &[Key::Unit, Key::Light])?;
    let unit = needed_number(table, Key::Unit)?;
    let lit = needed_bool(table, Key::Light)?;
    let unit = place_in(Key::Unit, units, unit)?;
    Ok(ScriptEvent::Light { unit, lit })
}

/// Reads an event table, whose form is told by the key that this form alone has. Of a table that has none of these keys
/// the first key that no event has is told, where there is one.
#[tactic(auto, unfolding(crate::specs::Event::event_of, crate::specs::Event::no_form), using(crate::proofs::PlacesLemmas::named_port, crate::proofs::PlacesLemmas::named_unit))]
fn event_of(ports: u8, units: u16, mask: Mask, table: &Table) -> Result<ScriptEvent, TableFault<'_>>
    ensures value { Sees (λ e. e) result (spec.event_of ports units mask (table_view table.now)) }
    ensures names { IfOk result (λ e. NamesOneOf ports units e) }
{
    if member(table, Key::Frames).is_some() {
        frames_event(ports, table)
    } else if member(table, Key::Burst).is_some() {
        burst_event(ports, table)
    } else if member(table, Key::Say).is_some() {
        say_event(ports, mask, table)
    } else if member(table, Key::Command).is_some() {
        command_event(ports, table)
    } else if member(table, Key::Light).is_some() {
        light_event(units, table)
    } else {
        has_only(table, EVENT_KEYS.as_slice())?;
        Err(TableFault::Unmet(Spot::Table, Wanted::Form))
    }
}

/// Reads the event tables.
#[tactic(auto, unfolding(crate::specs::Event::events_from), using(crate::proofs::EventsLemmas::behind_nothing))]
pub(crate) fn events_of(
    alloc: Global,
    ports: u8,
    units: u16,
    mask: Mask,
    tables: &[Value],
) -> Result<Vec<ScriptEvent>, WalkError<'_>>
    ensures value { Walks (λ v. v.items) result (spec.events_from 0 ports units mask (items_view tables.now)) }
    ensures names { IfOk result (λ v. All (λ e. NamesOneOf ports units e) v.items) }
    ensures count { IfOk result (λ v. vec_len v ≡ length tables.now) }
{
    let mut events = Vec::with_capacity(alloc, tables.len())?;
    'tables: for value in tables {
        let Some(table) = value.as_table() else {
            return Err(no_table(Key::Event, events.len()));
        };
        let event = match event_of(ports, units, mask, table) {
            Ok(event) => event,
            Err(fault) => return Err(WalkError::Inside(TablePlace::Event(events.len()), fault)),
        };
        events.push_reserved(event);
    }
    Ok(events)
}
