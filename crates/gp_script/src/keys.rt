//! The keys of a table: those that it may have, and the value at each, of its type.
ghost use Rattle.std.specs.Prelude.{◌≡◌, option_map};
ghost use Rattle.toml.specs.Data.{get_member};
ghost use Rattle.toml.specs.View.{table_view, items_view, view};
ghost use Rattle.gp_script.specs.Fault.{Sees, needs as holds_or_fault};
ghost use Rattle.gp_script.specs.Keys as spec;
ghost use Rattle.gp_script.specs.Mistake.{at_key, key_name};

use crate::place::{Key, Spot, Wanted};
use crate::walk::{TableFault, wanted_at};
use toml::value::Array;
use toml::{Table, Value};

/// Tells whether this is the name of one of the keys.
fn is_one_of(keys: &[Key], name: &str) -> bool
    ensures { result ≡ spec.is_one_of keys.now name.now }
{
    keys.iter().any(|key| key.name() == name)
}

/// Gives the first key of the table that is none of these.
fn other_key<'a>(table: &'a Table, keys: &[Key]) -> Option<&'a str>
    ensures { option_map (λ s. s.now) result ≡ spec.other_key keys.now (table_view table.now) }
{
    match table.keys().find(|name| !is_one_of(keys, name.as_str())) {
        None => None,
        Some(name) => Some(name.as_str()),
    }
}

/// Answers a fault unless each key of the table is one of these.
pub(crate) fn has_only<'a>(table: &'a Table, keys: &[Key]) -> Result<(), TableFault<'a>>
    ensures { Sees (λ u. u) result (spec.has_only keys.now (table_view table.now)) }
{
    match other_key(table, keys) {
        None => Ok(()),
        Some(name) => Err(TableFault::UnknownKey(name)),
    }
}

/// Answers that something is wanted at a key, unless the test holds.
pub(crate) fn needs<'a>(key: Key, want: Wanted, test: bool) -> Result<(), TableFault<'a>>
    ensures { result ≡ holds_or_fault (TableFault.Unmet (Spot.Key key) want) test }
{
    if test {
        Ok(())
    } else {
        Err(wanted_at(key, want))
    }
}

/// Gives the value at a key.
pub(crate) fn member<'a>(table: &'a Table, key: Key) -> Option<&'a Value>
    ensures { option_map (λ v. view v.now) result ≡ get_member (key_name key) (table_view table.now) }
{
    table.get(key.name())
}

/// Reads the number at a key that may be left out.
pub(crate) fn number_at(table: &Table, key: Key) -> Result<Option<i64>, TableFault<'_>>
    ensures { Sees (λ n. n) result (spec.number_at key (table_view table.now)) }
{
    match member(table, key) {
        None => Ok(None),
        Some(value) => value
            .as_integer()
            .map(Some)
            .ok_or(wanted_at(key, Wanted::Number)),
    }
}

/// Reads the text at a key that may be left out.
pub(crate) fn text_at(table: &Table, key: Key) -> Result<Option<&str>, TableFault<'_>>
    ensures { Sees (option_map (λ s. s.now)) result (spec.text_at key (table_view table.now)) }
{
    match member(table, key) {
        None => Ok(None),
        Some(value) => value.as_str().map(Some).ok_or(wanted_at(key, Wanted::Text)),
    }
}

/// Reads the truth value at a key that has to be there.
pub(crate) fn needed_bool(table: &Table, key: Key) -> Result<bool, TableFault<'_>>
    ensures { Sees (λ b. b) result (spec.needed_bool key (table_view table.now)) }
{
    match member(table, key) {
        None => Err(wanted_at(key, Wanted::Value)),
        Some(value) => value.as_bool().ok_or(wanted_at(key, Wanted::Truth)),
    }
}

/// Gives the items of a value that has to be a list.
fn items_of(key: Key, value: &Value) -> Result<&[Value], TableFault<'_>>
    ensures { Sees (λ items. Some (items_view items.now)) result
        (at_key key (spec.list_or_none (Some (view value.now)))) }
{
    value
        .as_array()
        .map(Vec::as_slice)
        .ok_or(wanted_at(key, Wanted::List))
}

/// Reads the list at a key that may be left out; then there is no item.
pub(crate) fn list_at(table: &Table, key: Key) -> Result<&[Value], TableFault<'_>>
    ensures { Sees (λ items. items_view items.now) result (spec.list_at key (table_view table.now)) }
{
    match member(table, key) {
        None => Ok(&[]),
        Some(value) => items_of(key, value),
    }
}

/// Reads the number at a key that has to be there.
pub(crate) fn needed_number(table: &Table, key: Key) -> Result<i64, TableFault<'_>>
    ensures { Sees (λ n. n) result (spec.needed_number key (table_view table.now)) }
{
    number_at(table, key)?.ok_or(wanted_at(key, Wanted::Value))
}

/// Reads the text at a key that has to be there.
pub(crate) fn needed_text(table: &Table, key: Key) -> Result<&str, TableFault<'_>>
    ensures { Sees (λ s. s.now) result (spec.needed_text key (table_view table.now)) }
{
    text_at(table, key)?.ok_or(wanted_at(key, Wanted::Value))
}

/// Reads the list at a key that has to be there.
pub(crate) fn needed_list(table: &Table, key: Key) -> Result<&[Value], TableFault<'_>>
    ensures { Sees (λ items. items_view items.now) result (spec.needed_list key (table_view table.now)) }
{
    match member(table, key) {
        None => Err(wanted_at(key, Wanted::Value)),
        Some(value) => items_of(key, value),
    }
}

/// Gives the place of the first item that is no table.
fn other_than_table(items: &[Value]) -> Option<usize>
    ensures { result ≡ spec.other_than_table (items_view items.now) }
{
    items.iter().position(|item| !item.is_table())
}

/// Gives the place of the first item that is no text.
fn other_than_text(items: &[Value]) -> Option<usize>
    ensures { result ≡ spec.other_than_text (items_view items.now) }
{
    items.iter().position(|item| !item.is_str())
}

/// Answers that something else is wanted at this place of a list, where there is one.
fn wanted_nowhere<'a>(key: Key, want: Wanted, place: Option<usize>) -> Result<(), TableFault<'a>>
    ensures { Sees (λ u. u) result (spec.wanted_nowhere key want place) }
{
    match place {
        None => Ok(()),
        Some(place) => Err(TableFault::Unmet(Spot::Item(key, place), want)),
    }
}

/// Answers a fault unless each item of the list at a key is a table.
pub(crate) fn are_tables<'a>(key: Key, items: &[Value]) -> Result<(), TableFault<'a>>
    ensures { Sees (λ u. u) result (spec.are_tables key (items_view items.now)) }
{
    wanted_nowhere(key, Wanted::Table, other_than_table(items))
}

/// Answers a fault unless each item of the list at a key is a text.
pub(crate) fn are_texts<'a>(key: Key, items: &[Value]) -> Result<(), TableFault<'a>>
    ensures { Sees (λ u. u) result (spec.are_texts key (items_view items.now)) }
{
    wanted_nowhere(key, Wanted::Text, other_than_text(items))
}

/// Tells whether there is no item.
#[tactic(auto, using(crate::proofs::ItemsLemmas::item_count_view))]
pub(crate) fn is_empty(items: &[Value]) -> bool
    ensures { result ≡ spec.is_empty (items_view items.now) }
{
    items.is_empty()
}
