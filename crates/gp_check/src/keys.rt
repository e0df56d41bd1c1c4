//! What is told of a key that a table may not have.
ghost use Rattle.std.specs.Prelude.{◌≡◌, IfOk, string_bytes};
ghost use Rattle.gp_script.specs.Keys.{is_one_of};
ghost use Rattle.gp_check.specs.Keys as spec;

use gp_script::{Key, TablePlace};
use std::alloc::{AllocError, Global};

/// Tells whether two texts are the same but for their first octets, which are exchanged.
fn is_swapped(given: &[u8], name: &[u8]) -> bool
    ensures { result ≡ spec.is_swapped given.now name.now }
{
    match (given, name) {
        ([a, b, given @ ..], [c, d, name @ ..]) => a == d && b == c && given == name,
        _ => false,
    }
}

/// Tells whether of two texts one has an octet more or another octet at its front, or two are exchanged there.
fn is_near_here(given: &[u8], name: &[u8]) -> bool
    ensures { result ≡ spec.is_near_here given.now name.now }
{
    match (given, name) {
        ([], []) => false,
        ([], [_, rest @ ..]) | ([_, rest @ ..], []) => rest.is_empty(),
        ([_, given_rest @ ..], [_, name_rest @ ..]) => {
            given_rest == name_rest
                || given_rest == name
                || given == name_rest
                || is_swapped(given, name)
        }
    }
}

/// Tells whether two texts differ by one octet, which stands in one of them alone or is another one, or by two that are
/// exchanged.
fn is_near(given: &[u8], name: &[u8]) -> bool
    ensures { result ≡ spec.is_near given.now name.now }
{
    match (given, name) {
        ([a, given_rest @ ..], [b, name_rest @ ..]) if a == b => is_near(given_rest, name_rest),
        _ => is_near_here(given, name),
    }
}

/// Gives the first of these keys whose name is near.
fn meant(keys: &[Key], name: &str) -> Option<Key>
    ensures { result ≡ spec.meant keys.now name.now }
{
    keys.iter()
        .find(|key| is_near(name.as_bytes(), key.name().as_bytes()))
        .copied()
}

/// Tells whether this is the name of one of the keys.
fn is_key_of(keys: &[Key], name: &str) -> bool
    ensures { result ≡ is_one_of keys.now name.now }
{
    keys.iter().any(|key| key.name() == name)
}

/// Gives the keys that a table may have, with commas between them.
fn keys_text(table: TablePlace) -> &'static str
    ensures { result.now ≡ spec.keys_text table }
{
    match table {
        TablePlace::Top => "licences, mask, journal_limit, port, unit, lose, event",
        TablePlace::Port(_) => {
            "teqd, max_units, alloc_last, cycles, search_period, quarantine, overhead, admit"
        }
        TablePlace::Unit(_) => "serial, delay, random",
        TablePlace::Lose(_) => "copy, burst",
        TablePlace::Event(_) => {
            "port, frames, burst, say, command, light, at, serial, onu, id, alloc, unit"
        }
    }
}

/// Gives what is told of a key that was meant, where there is one.
fn meant_text(alloc: Global, meant: Option<Key>) -> Result<String, AllocError>
    ensures { IfOk result (λ text. string_bytes text ≡ spec.meant_text meant) }
{
    match meant {
        None => Ok(String::new(alloc)),
        Some(key) => {
            let name = key.name();
            format!(in alloc; ", perhaps {name}")
        }
    }
}

/// The keys of the top that have a value of their own, and no list of tables.
static TOP_VALUES: [Key; 3] = [Key::Licences, Key::Mask, Key::JournalLimit];

/// Tells whether this is the name of one of them.
fn is_of_top(name: &str) -> bool
    ensures { result ≡ spec.is_of_top name.now }
{
    is_key_of(TOP_VALUES.as_slice(), name)
}

/// Gives what is told of a key that the table may not have.
pub(crate) fn unknown_key_text(
    alloc: Global,
    table: TablePlace,
    name: &str,
) -> Result<String, AllocError>
    ensures { IfOk result (λ text. string_bytes text ≡ spec.unknown_key_text table name.now) }
{
    let keys = table.keys();
    if is_key_of(keys, name) {
        return String::from_str(alloc, "unknown key in this form of an event");
    }
    if is_of_top(name) {
        return String::from_str(
            alloc,
            "unknown key here; it has to stand before the first table",
        );
    }
    let meant = meant_text(alloc, meant(keys, name))?;
    let there_are = keys_text(table);
    format!(in alloc; "unknown key{meant}; there are {there_are}")
}
