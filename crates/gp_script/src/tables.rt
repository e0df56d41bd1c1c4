//! The keys that a table of a script may have.
ghost use Rattle.std.specs.Prelude.{◌≡◌};
ghost use Rattle.gp_script.specs.Tables.{keys_of};

use crate::place::{Key, TablePlace};
use crate::ports::PORT_KEYS;
use crate::top::TOP_KEYS;

/// The keys of a unit table.
pub(crate) static UNIT_KEYS: [Key; 3] = [Key::Serial, Key::Delay, Key::Random];

/// The keys of a table of what is lost.
pub(crate) static LOSE_KEYS: [Key; 2] = [Key::Copy, Key::Burst];

/// The keys of an event table, each of which some form of an event has.
pub(crate) static EVENT_KEYS: [Key; 12] = [
    Key::Port,
    Key::Frames,
    Key::Burst,
    Key::Say,
    Key::Command,
    Key::Light,
    Key::At,
    Key::Serial,
    Key::Onu,
    Key::Id,
    Key::Alloc,
    Key::Unit,
];

impl TablePlace {
    /// Gives the keys that the table may have; of an event those of all its forms.
    pub fn keys(self) -> &'static [Key]
        ensures { result.now ≡ keys_of self }
    {
        match self {
            TablePlace::Top => TOP_KEYS.as_slice(),
            TablePlace::Port(_) => PORT_KEYS.as_slice(),
            TablePlace::Unit(_) => UNIT_KEYS.as_slice(),
            TablePlace::Lose(_) => LOSE_KEYS.as_slice(),
            TablePlace::Event(_) => EVENT_KEYS.as_slice(),
        }
    }
}
