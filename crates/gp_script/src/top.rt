//! The top of a script: licences, mask, and the lists of its tables.
ghost use Rattle.std.specs.Prelude.{◌≡◌, ◌<◌, ◌≤◌, [], IfOk, false, length};
ghost use Rattle.toml.specs.View.{table_view, items_view};
ghost use Rattle.gp_script.specs.Fault.{Sees};
ghost use Rattle.gp_script.specs.Script.{fit_together as tables_fit, top_of as top_or_mistake, top_shape};
ghost use Rattle.gp_script.specs.View.{top_keys_view, top_view};

use crate::keys::{
    are_tables, has_only, is_empty, list_at, needed_list, needed_number, needs, number_at,
};
use crate::place::{Counted, Key, Wanted};
use crate::values::{count_in, in_range, in_range_or, mask_of};
use crate::walk::{TableFault, wanted_at};
use gp_licence::MAX_LICENCES;
use gp_machine::{MAX_JOURNAL_LIMIT, MAX_PORTS};
use gp_onu::MAX_SIMULATED_UNITS;
use gp_ploam::Mask;
use toml::{Table, Value};

/// How many events a script may have at most.
const MAX_EVENTS: u32 = 1_048_576;

/// The keys of the top.
pub(crate) static TOP_KEYS: [Key; 7] = [
    Key::Licences,
    Key::Mask,
    Key::JournalLimit,
    Key::Port,
    Key::Unit,
    Key::Lose,
    Key::Event,
];

/// What stands at the keys of the top, each of its type.
#[derive(Clone, Copy)]
struct TopKeys<'a> {
    licences: i64,
    mask: Option<i64>,
    journal_limit: Option<i64>,
    ports: &'a [Value],
    units: &'a [Value],
    losses: &'a [Value],
    events: &'a [Value],
}

/// What the top says, each value in its range, and how many ports and units there are.
#[derive(Clone, Copy)]
pub(crate) struct Top<'a> {
    pub(crate) licences: u32,
    pub(crate) mask: Mask,
    pub(crate) journal_limit: u32,
    pub(crate) port_count: u8,
    pub(crate) unit_count: u16,
    pub(crate) ports: &'a [Value],
    pub(crate) units: &'a [Value],
    pub(crate) losses: &'a [Value],
    pub(crate) events: &'a [Value],
}

/// Answers a fault unless units stand beside one port at most, where they may stand at all, and what is lost beside
/// units alone.
#[tactic(auto, using(crate::proofs::ItemsLemmas::item_count_view))]
fn fit_together<'a>(
    may_have_units: bool,
    ports: &[Value],
    units: &[Value],
    losses: &[Value],
) -> Result<(), TableFault<'a>>
    ensures value { Sees (λ u. u) result (tables_fit may_have_units (items_view ports.now) (items_view units.now)
        (items_view losses.now)) }
    ensures one_port { IfOk result (λ _. 0 < length units.now → length ports.now ≤ 1) }
    ensures no_units { may_have_units ≡ false → IfOk result (λ _. (units.now ≡ []) × (losses.now ≡ [])) }
{
    if is_empty(units) {
        if is_empty(losses) {
            Ok(())
        } else {
            Err(wanted_at(Key::Lose, Wanted::Units))
        }
    } else if may_have_units {
        needs(Key::Unit, Wanted::OnePort, ports.len() <= 1)
    } else {
        Err(wanted_at(Key::Unit, Wanted::NoUnits))
    }
}

/// Reads the keys of the top, each value of its type.
#[tactic(auto, unfolding(crate::specs::Script::top_shape))]
fn top_keys(may_have_units: bool, table: &Table) -> Result<TopKeys<'_>, TableFault<'_>>
    ensures value { Sees top_keys_view result (top_shape may_have_units (table_view table.now)) }
    ensures one_port { IfOk result (λ keys. 0 < length keys.units.now → length keys.ports.now ≤ 1) }
    ensures no_units { may_have_units ≡ false → IfOk result (λ keys. (keys.units.now ≡ []) × (keys.losses.now ≡ [])) }
{
    has_only(table, &TOP_KEYS)?;
    let licences = needed_number(table, Key::Licences)?;
    let mask = number_at(table, Key::Mask)?;
    let journal_limit = number_at(table, Key::JournalLimit)?;
    let ports = needed_list(table, Key::Port)?;
    let units = list_at(table, Key::Unit)?;
    let losses = list_at(table, Key::Lose)?;
    let events = list_at(table, Key::Event)?;
    are_tables(Key::Port, ports)?;
    are_tables(Key::Unit, units)?;
    are_tables(Key::Lose, losses)?;
    are_tables(Key::Event, events)?;
    fit_together(may_have_units, ports, units, losses)?;
    Ok(TopKeys {
        licences,
        mask,
        journal_limit,
        ports,
        units,
        losses,
        events,
    })
}

/// Reads the values of the top, each in its range.
#[tactic(auto, unfolding(crate::specs::Script::top_of))]
pub(crate) fn top_of(may_have_units: bool, table: &Table) -> Result<Top<'_>, TableFault<'_>>
    ensures value { Sees top_view result (top_or_mistake may_have_units (table_view table.now)) }
    ensures licences { IfOk result (λ top. top.licences ≤ MAX_LICENCES) }
    ensures journal { IfOk result (λ top. (1 ≤ top.journal_limit) × (top.journal_limit ≤ MAX_JOURNAL_LIMIT)) }
    ensures port_count { IfOk result (λ top. top.port_count ≡ length top.ports.now) }
    ensures ports { IfOk result (λ top. (1 ≤ top.port_count) × (top.port_count ≤ MAX_PORTS)) }
    ensures unit_count { IfOk result (λ top. top.unit_count ≡ length top.units.now) }
    ensures units { IfOk result (λ top. top.unit_count ≤ MAX_SIMULATED_UNITS) }
    ensures events { IfOk result (λ top. length top.events.now ≤ MAX_EVENTS) }
    ensures one_port { IfOk result (λ top. 0 < length top.units.now → length top.ports.now ≤ 1) }
    ensures no_units { may_have_units ≡ false → IfOk result (λ top. (top.units.now ≡ []) × (top.losses.now ≡ [])) }
{
    let keys = top_keys(may_have_units, table)?;
    let licences = in_range(Key::Licences, 0..=MAX_LICENCES, keys.licences)?;
    let mask = mask_of(keys.mask)?;
    let most = MAX_JOURNAL_LIMIT;
    let journal_limit = in_range_or(Key::JournalLimit, most, 1..=most, keys.journal_limit)?;
    let most = u32::from(MAX_PORTS);
    let port_count = count_in(Key::Port, Counted::Tables, 1..=most, keys.ports)? as u8;
    let most = u32::from(MAX_SIMULATED_UNITS);
    let unit_count = count_in(Key::Unit, Counted::Tables, 0..=most, keys.units)? as u16;
    count_in(Key::Event, Counted::Tables, 0..=MAX_EVENTS, keys.events)?;
    Ok(Top {
        licences,
        mask,
        journal_limit,
        port_count,
        unit_count,
        ports: keys.ports,
        units: keys.units,
        losses: keys.losses,
        events: keys.events,
    })
}
