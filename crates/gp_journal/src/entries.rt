//! Entries in order as plain data, made of a `Vec` and giving it back without taking memory.
ghost use Rattle.std.specs.Prelude.{◌≡◌, length};

use gp_machine::Entry;
use std::marker::Model;

/// Entries in order. Contracts see them as a list.
#[derive(Debug, Drop)]
pub struct Entries {
    items: Vec<Entry>,
}

impl Model for Entries {
    ghost use Rattle.std.specs.Coded.{codes};
    ghost use Rattle.std.specs.Prelude.{List};
    ghost use Rattle.gp_machine.specs.declared.entry.Entry.{Entry};
    ghost use Rattle.gp_machine.specs.contracts.entry.Entry as entry;

    ghost Value = { List Entry };

    ghost coded = { Prim.hlevel (codes, entry.the_row.coded) };

    ghost view = { λ e. e.items.items };
}

impl From<Vec<Entry>> for Entries {
    ghost from_gives = { λ items entries. entries ≡ items.items };

    fn from(items: Vec<Entry>) -> Entries {
        Entries { items }
    }
}

impl Entries {
    /// Gives the list itself; this takes no memory.
    pub fn into_vec(self) -> Vec<Entry>
        ensures { result.items ≡ self }
    {
        let Entries { items } = self;
        items
    }

    /// Gives the entries, in order.
    pub fn as_slice(&self) -> &[Entry]
        ensures { result.now ≡ self.now }
    {
        &self.items
    }

    /// Tells how many entries there are.
    pub fn len(&self) -> usize
        ensures { result ≡ length self.now }
    {
        self.items.len()
    }
}
