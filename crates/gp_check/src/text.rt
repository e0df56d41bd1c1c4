//! The text of a mistake: where it is, its kind, and what is wanted there.
ghost use Rattle.std.specs.Prelude.{◌≡◌, IfOk, string_bytes};
ghost use Rattle.std.specs.List.{list_all};
ghost use Rattle.gp_check.specs.Words as spec;

use crate::keys::unknown_key_text;
use gp_script::{
    Counted, Key, Mistake, ScriptFault, Spot, SyntaxMistake, TableMistake, TablePlace, Wanted,
};
use std::alloc::{AllocError, Global};

/// How many octets of an unknown key are shown at most.
const MAX_SHOWN: usize = 64;

/// Gives a table as it is told.
fn table_text(alloc: Global, table: TablePlace) -> Result<String, AllocError>
    ensures { IfOk result (λ text. string_bytes text ≡ spec.table_text table) }
{
    match table {
        TablePlace::Top => String::from_str(alloc, "top"),
        TablePlace::Port(place) => format!(in alloc; "port {place}"),
        TablePlace::Unit(place) => format!(in alloc; "unit {place}"),
        TablePlace::Lose(place) => format!(in alloc; "lose {place}"),
        TablePlace::Event(place) => format!(in alloc; "event {place}"),
    }
}

/// Tells whether the table is the top.
pub(crate) fn is_top(table: TablePlace) -> bool
    ensures { result ≡ spec.is_top table }
{
    match table {
        TablePlace::Top => true,
        TablePlace::Port(_) | TablePlace::Unit(_) | TablePlace::Lose(_) | TablePlace::Event(_) => {
            false
        }
    }
}

/// Gives a key behind its table, but for one of the top.
fn key_text(alloc: Global, table: TablePlace, key: &str) -> Result<String, AllocError>
    ensures { IfOk result (λ text. string_bytes text ≡ spec.key_text table key.now) }
{
    if is_top(table) {
        return String::from_str(alloc, key);
    }
    let table = table_text(alloc, table)?;
    format!(in alloc; "{table}, {key}")
}

/// Gives a spot of a table.
fn place_text(alloc: Global, table: TablePlace, spot: Spot) -> Result<String, AllocError>
    ensures { IfOk result (λ text. string_bytes text ≡ spec.place_text table spot) }
{
    match spot {
        Spot::Table => table_text(alloc, table),
        Spot::Key(key) => key_text(alloc, table, key.name()),
        Spot::Item(key, place) => {
            let key = key.name();
            let item = format!(in alloc; "{key} {place}")?;
            key_text(alloc, table, item.as_str())
        }
    }
}

/// Gives the kind of a fault, by its number and its name.
fn fault_text(fault: ScriptFault) -> &'static str
    ensures { result.now ≡ spec.fault_text fault }
{
    match fault {
        ScriptFault::Syntax => "1 syntax",
        ScriptFault::Shape => "2 shape",
        ScriptFault::Range => "3 range",
        ScriptFault::Serial => "4 serial",
        ScriptFault::Hex => "5 hex",
        ScriptFault::Duplicate => "6 duplicate",
    }
}

/// Gives what is counted.
fn counted_text(counted: Counted) -> &'static str
    ensures { result.now ≡ spec.counted_text counted }
{
    match counted {
        Counted::Tables => "tables",
        Counted::Serials => "serial numbers",
    }
}

/// Gives that a word is unknown, and those that there are at the key.
fn unknown_word(spot: Spot) -> &'static str
    ensures { result.now ≡ spec.unknown_word spot }
{
    match spot {
        Spot::Key(Key::Say) => "unknown word; there are serial, gasp, none, ack",
        Spot::Key(Key::Command) => {
            "unknown word; there are search, alloc, dealloc, deactivate, disable, enable, enable-all, popup, popup-all, show"
        }
        _ => "unknown word",
    }
}

/// Gives that a value is missing, and where it has to stand if that is not in its own table alone.
fn missing_text(spot: Spot) -> &'static str
    ensures { result.now ≡ spec.missing_text spot }
{
    match spot {
        Spot::Key(Key::Licences) => "missing; it has to stand before the first table",
        _ => "missing",
    }
}

/// Gives that something is no list, and how the tables of one begin.
fn no_list_text(spot: Spot) -> &'static str
    ensures { result.now ≡ spec.no_list_text spot }
{
    match spot {
        Spot::Key(Key::Port) => "not a list; each table of it begins with [[port]]",
        Spot::Key(Key::Unit) => "not a list; each table of it begins with [[unit]]",
        Spot::Key(Key::Lose) => "not a list; each table of it begins with [[lose]]",
        Spot::Key(Key::Event) => "not a list; each table of it begins with [[event]]",
        _ => "not a list",
    }
}

/// Gives what is wanted at a spot, or what is wrong with what stands there.
pub(crate) fn wanted_text(alloc: Global, spot: Spot, want: Wanted) -> Result<String, AllocError>
    ensures { IfOk result (λ text. string_bytes text ≡ spec.wanted_text spot want) }
{
    match want {
        Wanted::Value => String::from_str(alloc, missing_text(spot)),
        Wanted::Number => String::from_str(alloc, "not a whole number"),
        Wanted::Text => String::from_str(alloc, "not a text"),
        Wanted::Truth => String::from_str(alloc, "not true or false"),
        Wanted::List => String::from_str(alloc, no_list_text(spot)),
        Wanted::Table => String::from_str(alloc, "not a table"),
        Wanted::Form => String::from_str(
            alloc,
            "no form of an event, which has frames, burst, say, command or light",
        ),
        Wanted::Word => String::from_str(alloc, unknown_word(spot)),
        Wanted::OneLoss => String::from_str(alloc, "either copy or burst"),
        Wanted::Units => String::from_str(alloc, "only beside units"),
        Wanted::NoUnits => String::from_str(alloc, "not in a storm"),
        Wanted::OnePort => String::from_str(alloc, "only beside one port"),
        Wanted::Range { low, high } => format!(in alloc; "{low} to {high}"),
        Wanted::Count { counted, low, high } => {
            let counted = counted_text(counted);
            format!(in alloc; "{low} to {high} {counted}")
        }
        Wanted::MaskNumber => String::from_str(alloc, "0 or 85"),
        Wanted::SerialText => String::from_str(
            alloc,
            "4 of A to Z and 0 to 9 and 8 hexadecimal digits, or 16 hexadecimal digits",
        ),
        Wanted::Digits(count) => format!(in alloc; "{count} hexadecimal digits"),
        Wanted::NewSerial { port } => format!(in alloc; "also on port {port}"),
    }
}

/// Tells whether an unknown key is shown.
fn is_shown(key: &str) -> bool
    ensures { result ≡ spec.is_shown key.now }
{
    !key.is_empty() && key.len() <= MAX_SHOWN && is_bare(key.as_bytes())
}

/// Tells whether each octet is one of a key that stands without quotes.
fn is_bare(key: &[u8]) -> bool
    ensures { result ≡ list_all spec.is_bare_octet key.now }
{
    key.iter().all(|octet| octet.is_ascii_alphanumeric() || *octet == b'_' || *octet == b'-')
}

/// Gives a table, and an unknown key of it where it is shown.
fn unknown_text(alloc: Global, table: TablePlace, key: &str) -> Result<String, AllocError>
    ensures { IfOk result (λ text. string_bytes text ≡ spec.unknown_text table key.now) }
{
    if is_shown(key) {
        key_text(alloc, table, key)
    } else {
        table_text(alloc, table)
    }
}

/// Gives what is wrong in a table.
fn table_mistake_text(
    alloc: Global,
    table: TablePlace,
    mistake: &TableMistake,
) -> Result<String, AllocError>
    ensures { IfOk result (λ text. string_bytes text ≡ spec.table_mistake_text table mistake.now) }
{
    match mistake {
        TableMistake::UnknownKey(key) => {
            let place = unknown_text(alloc, table, key.as_str())?;
            let told = unknown_key_text(alloc, table, key.as_str())?;
            format!(in alloc; "{place}: 2 shape, {told}")
        }
        TableMistake::Unmet(spot, want) => {
            let place = place_text(alloc, table, *spot)?;
            let fault = fault_text(want.fault());
            let want = wanted_text(alloc, *spot, *want)?;
            format!(in alloc; "{place}: {fault}, {want}")
        }
    }
}

/// Gives why a text is no TOML, and where.
fn syntax_text(alloc: Global, syntax: &SyntaxMistake) -> Result<String, AllocError>
    ensures { IfOk result (λ text. string_bytes text ≡ spec.syntax_text syntax.now) }
{
    let (line, column) = (syntax.line, syntax.column);
    let message = syntax.message.as_str();
    format!(in alloc; "line {line}, column {column}: 1 syntax, {message}")
}

/// Gives the text of a mistake: where the script is wrong, the kind of fault, and what is wanted there.
///
/// Of an unknown key the name stands in it where TOML needs no quotes for it and it has at most 64 octets, so that a
/// text is one line.
pub fn mistake_line(alloc: Global, mistake: &Mistake) -> Result<String, AllocError>
    ensures { IfOk result (λ text. string_bytes text ≡ spec.mistake_text mistake.now) }
{
    match mistake {
        Mistake::NoText => String::from_str(alloc, "1 syntax, not UTF-8"),
        Mistake::NoToml(syntax) => syntax_text(alloc, syntax),
        Mistake::Inside(table, mistake) => table_mistake_text(alloc, *table, mistake),
    }
}

/// Gives the text of a mistake, and the line where it stands, where that is known.
pub(crate) fn placed_text(
    alloc: Global,
    mistake: &Mistake,
    line: Option<usize>,
) -> Result<String, AllocError>
    ensures { IfOk result (λ text. string_bytes text ≡ spec.placed_text mistake.now line) }
{
    let text = mistake_line(alloc, mistake)?;
    match line {
        None => Ok(text),
        Some(line) => format!(in alloc; "{text}, line {line}"),
    }
}
