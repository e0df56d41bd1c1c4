//! The tables under `port`: each port's parameters and admitted serial numbers.
ghost use Rattle.std.specs.Prelude.{◌≡◌, [], ◌<◌, ◌≤◌, ◌++◌, length, option_map, IfOk, IsTrue, All, vec_len};
ghost use Rattle.toml.specs.View.{table_view, items_view, view};
ghost use Rattle.gp_machine.specs.Config.{is_distinct, is_within_limits};
ghost use Rattle.gp_script.specs.Fault.{Sees, Walks};
ghost use Rattle.gp_script.specs.Mistake.{at_key, in_table};
ghost use Rattle.gp_script.specs.Port as spec;
ghost use Rattle.gp_script.specs.Admits.{Admits, item_error as error_at_item, wanted_by_admit};
ghost use Rattle.gp_script.specs.View.{port_keys_view, port_values_view};

use crate::keys::{are_texts, has_only, list_at, number_at, text_at};
use crate::place::{Counted, Key, Spot, TablePlace, Wanted};
use crate::values::{count_in, in_range_or, octets_of, serial_in_text};
use crate::walk::{TableFault, WalkError, no_table};
use gp_machine::{
    Admitted, FIRST_ALLOC_ID, LAST_ALLOC_ID, MAX_CYCLES, MAX_QUARANTINE, MAX_SEARCH_PERIOD,
    MAX_UNITS, PortConfig,
};
use gp_ploam::{Mask, Serial};
use gp_serial::{AdmissionList, AdmitFault, MAX_ON_A_PORT};
use std::alloc::Global;
use toml::{Table, Value};

/// The keys of a port table.
pub(crate) static PORT_KEYS: [Key; 8] = [
    Key::Teqd,
    Key::MaxUnits,
    Key::AllocLast,
    Key::Cycles,
    Key::SearchPeriod,
    Key::Quarantine,
    Key::Overhead,
    Key::Admit,
];

/// What stands at the keys of a port table, each of its type.
#[derive(Clone, Copy)]
struct PortKeys<'a> {
    teqd: Option<i64>,
    max_units: Option<i64>,
    alloc_last: Option<i64>,
    cycles: Option<i64>,
    search_period: Option<i64>,
    quarantine: Option<i64>,
    overhead: Option<&'a str>,
    admit: &'a [Value],
}

/// What a port table says, each value in its range, but for the serial numbers, which are texts still.
#[derive(Clone, Copy)]
struct PortValues<'a> {
    teqd: u32,
    overhead: [u8; 10],
    max_units: u8,
    alloc_last: u16,
    cycles: u8,
    search_period: u32,
    quarantine: u16,
    admit: &'a [Value],
}

/// Reads the keys of a port table, each value of its type.
#[tactic(auto, unfolding(crate::specs::Port::port_shape))]
fn port_keys(table: &Table) -> Result<PortKeys<'_>, TableFault<'_>>
    ensures { Sees port_keys_view result (spec.port_shape (table_view table.now)) }
{
    has_only(table, &PORT_KEYS)?;
    let teqd = number_at(table, Key::Teqd)?;
    let max_units = number_at(table, Key::MaxUnits)?;
    let alloc_last = number_at(table, Key::AllocLast)?;
    let cycles = number_at(table, Key::Cycles)?;
    let search_period = number_at(table, Key::SearchPeriod)?;
    let quarantine = number_at(table, Key::Quarantine)?;
    let overhead = text_at(table, Key::Overhead)?;
    let admit = list_at(table, Key::Admit)?;
    are_texts(Key::Admit, admit)?;
    Ok(PortKeys {
        teqd,
        max_units,
        alloc_last,
        cycles,
        search_period,
        quarantine,
        overhead,
        admit,
    })
}

/// Reads the octets of Upstream_Overhead.
fn overhead_of<'a>(text: Option<&str>) -> Result<[u8; 10], TableFault<'a>>
    ensures { Sees (λ octets. octets) result
        (at_key Key.Overhead (spec.overhead_of (option_map (λ s. s.now) text.entry))) }
{
    match text {
        None => Ok([0; 10]),
        Some(text) => octets_of(Key::Overhead, text),
    }
}

/// Reads the values of a port table, each in its range.
#[tactic(auto, unfolding(crate::specs::Port::port_numbers))]
fn port_values(table: &Table) -> Result<PortValues<'_>, TableFault<'_>>
    ensures value { Sees port_values_view result (spec.port_numbers (table_view table.now)) }
    ensures few { IfOk result (λ values. length values.admit.now ≤ MAX_ON_A_PORT) }
    ensures units { IfOk result (λ values. (1 ≤ values.max_units) × (values.max_units ≤ MAX_UNITS)) }
    ensures allocs { IfOk result (λ values.
        (FIRST_ALLOC_ID ≤ values.alloc_last) × (values.alloc_last ≤ LAST_ALLOC_ID)) }
    ensures cycles { IfOk result (λ values. (1 ≤ values.cycles) × (values.cycles ≤ MAX_CYCLES)) }
    ensures period { IfOk result (λ values. values.search_period ≤ MAX_SEARCH_PERIOD) }
    ensures quarantine { IfOk result (λ values. values.quarantine ≤ MAX_QUARANTINE) }
{
    let keys = port_keys(table)?;
    let teqd = in_range_or(Key::Teqd, 311_040, 0..=u32::MAX, keys.teqd)?;
    let units = u32::from(MAX_UNITS);
    let max_units = in_range_or(Key::MaxUnits, units, 1..=units, keys.max_units)?;
    let (first, last) = (u32::from(FIRST_ALLOC_ID), u32::from(LAST_ALLOC_ID));
    let alloc_last = in_range_or(Key::AllocLast, last, first..=last, keys.alloc_last)?;
    let cycles = in_range_or(Key::Cycles, 3, 1..=u32::from(MAX_CYCLES), keys.cycles)?;
    let periods = 0..=MAX_SEARCH_PERIOD;
    let search_period = in_range_or(Key::SearchPeriod, 0, periods, keys.search_period)?;
    let frames = 0..=u32::from(MAX_QUARANTINE);
    let quarantine = in_range_or(Key::Quarantine, 800, frames, keys.quarantine)?;
    let overhead = overhead_of(keys.overhead)?;
    let most = u32::from(MAX_ON_A_PORT);
    count_in(Key::Admit, Counted::Serials, 0..=most, keys.admit)?;
    Ok(PortValues {
        teqd,
        overhead,
        max_units: max_units as u8,
        alloc_last: alloc_last as u16,
        cycles: cycles as u8,
        search_period,
        quarantine: quarantine as u16,
        admit: keys.admit,
    })
}

/// Reads the serial number of a text of `admit`.
fn serial_in(value: &Value) -> Result<Serial, Wanted>
    ensures { result ≡ spec.serial_in (view value.now) }
{
    match value.as_str() {
        Some(text) => serial_in_text(text),
        None => Err(Wanted::Text),
    }
}

/// Gives the first of these ports on which the serial number is admitted, or the port after them.
fn port_with(serial: &Serial, ports: &[PortConfig]) -> usize
    ensures { result ≡ spec.port_with serial.now ports.now }
{
    ports
        .iter()
        .position(|port| port.admitted.contains(serial))
        .unwrap_or(ports.len())
}

/// Tells what is wanted of a serial number that isn't admitted on the port after these; nothing where memory ran out.
fn unadmitted(ports: &[PortConfig], serial: &Serial, fault: AdmitFault) -> Option<Wanted>
    ensures { result ≡ wanted_by_admit ports.now serial.now fault }
{
    match fault {
        AdmitFault::Duplicate => Some(Wanted::NewSerial {
            port: port_with(serial, ports),
        }),
        AdmitFault::Full => Some(Wanted::Count {
            counted: Counted::Serials,
            low: 0,
            high: u64::from(MAX_ON_A_PORT),
        }),
        AdmitFault::OutOfMemory => None,
    }
}

/// Tells what is wanted of an item of `admit` on a port; nothing where memory ran out.
fn item_error<'a>(port: usize, item: usize, want: Option<Wanted>) -> WalkError<'a>
    ensures { result ≡ error_at_item port item want }
{
    match want {
        None => WalkError::OutOfMemory,
        Some(want) => {
            let fault = TableFault::Unmet(Spot::Item(Key::Admit, item), want);
            WalkError::Inside(TablePlace::Port(port), fault)
        }
    }
}

/// Reads the serial numbers of the texts of `admit`, each new on this port and the ports before it, which
/// `admitted` has.
#[tactic(auto, unfolding(crate::specs::Port::serials_from, crate::specs::Port::new_serial))]
fn serials_of<'a>(
    alloc: Global,
    before: &[PortConfig],
    admitted: &mut AdmissionList,
    texts: &[Value],
) -> Result<Vec<Serial>, WalkError<'a>>
    requires admits { Admits admitted.old before.now [] }
    requires few_ports { length before.now < 256 }
    requires few { length texts.now ≤ MAX_ON_A_PORT }
    requires once { IsTrue (is_distinct (spec.all_admitted before.now)) }
    ensures value { Walks (λ v. v.items) result
        (in_table (TablePlace.Port (length before.now)) (spec.serials_from before.now [] (items_view texts.now))) }
    ensures count { IfOk result (λ v. vec_len v ≡ length texts.now) }
    ensures distinct { IfOk result (λ v. IsTrue (is_distinct v.items)) }
    ensures once { IfOk result (λ v. IsTrue (is_distinct (spec.all_admitted before.now ++ v.items))) }
    ensures admits { IfOk result (λ v. Admits admitted.new before.now v.items) }
{
    let port = before.len();
    let mut serials = Vec::with_capacity(alloc, texts.len())?;
    'texts: for text in texts {
        let serial = match serial_in(text) {
            Ok(serial) => serial,
            Err(want) => return Err(item_error(port, serials.len(), Some(want))),
        };
        if let Err(fault) = admitted.admit(port as u8, serial) {
            let want = unadmitted(before, &serial, fault);
            return Err(item_error(port, serials.len(), want));
        }
        serials.push_reserved(serial);
    }
    Ok(serials)
}

/// Reads a port table, which stands behind those of the ports before it. `admitted` has the serial numbers of
/// those, and of this port too once it is read.
#[tactic(auto, unfolding(crate::specs::Port::port_of))]
fn port_of<'a>(
    alloc: Global,
    mask: Mask,
    before: &[PortConfig],
    admitted: &mut AdmissionList,
    table: &'a Table,
) -> Result<PortConfig, WalkError<'a>>
    requires admits { Admits admitted.old before.now [] }
    requires few_ports { length before.now < 256 }
    requires once { IsTrue (is_distinct (spec.all_admitted before.now)) }
    ensures value { Walks (λ port. port) result (spec.port_of mask before.now (table_view table.now)) }
    ensures limits { IfOk result (λ port. IsTrue (is_within_limits port)) }
    ensures mask { IfOk result (λ port. port.mask ≡ mask) }
    ensures admits { IfOk result (λ port. Admits admitted.new before.now port.admitted) }
    ensures once { IfOk result (λ port. IsTrue (is_distinct (spec.all_admitted before.now ++ port.admitted))) }
{
    let values = match port_values(table) {
        Ok(values) => values,
        Err(fault) => return Err(WalkError::Inside(TablePlace::Port(before.len()), fault)),
    };
    let serials = serials_of(alloc, before, admitted, values.admit)?;
    Ok(PortConfig {
        mask,
        teqd: values.teqd,
        overhead: values.overhead,
        max_units: values.max_units,
        alloc_last: values.alloc_last,
        cycles: values.cycles,
        search_period: values.search_period,
        quarantine: values.quarantine,
        admitted: Admitted::from(serials),
    })
}

/// Reads the configurations of the port tables.
#[tactic(auto, unfolding(crate::specs::Port::ports_from))]
pub(crate) fn ports_of(
    alloc: Global,
    mask: Mask,
    tables: &[Value],
) -> Result<Vec<PortConfig>, WalkError<'_>>
    requires few { length tables.now ≤ 256 }
    ensures value { Walks (λ v. v.items) result (spec.ports_from mask [] (items_view tables.now)) }
    ensures count { IfOk result (λ v. vec_len v ≡ length tables.now) }
    ensures limits { IfOk result (λ v. All (λ port. IsTrue (is_within_limits port)) v.items) }
    ensures once { IfOk result (λ v. IsTrue (is_distinct (spec.all_admitted v.items))) }
    ensures mask { IfOk result (λ v. All (λ port. port.mask ≡ mask) v.items) }
{
    let mut ports = Vec::with_capacity(alloc, tables.len())?;
    let mut admitted = AdmissionList::new(alloc);
    'tables: for value in tables {
        let Some(table) = value.as_table() else {
            return Err(no_table(Key::Port, ports.len()));
        };
        let port = port_of(alloc, mask, ports.as_slice(), &mut admitted, table)?;
        ports.push_reserved(port);
    }
    Ok(ports)
}
