//! Where a script may be wrong, and what is wanted there.

/// A key that a table of a script may have.
#[derive(Clone, Copy, Debug, PartialEq, Eq)]
pub enum Key {
    Licences,
    Mask,
    JournalLimit,
    Port,
    Unit,
    Lose,
    Event,
    Teqd,
    MaxUnits,
    AllocLast,
    Cycles,
    SearchPeriod,
    Quarantine,
    Overhead,
    Admit,
    Serial,
    Delay,
    Random,
    Copy,
    Burst,
    Frames,
    At,
    Say,
    Command,
    Light,
    Onu,
    Id,
    Alloc,
}

impl Key {
    ghost use Rattle.std.specs.Prelude.{◌≡◌};
    ghost use Rattle.gp_script.specs.Mistake.{key_name};

    /// Gives the key as it is written.
    pub fn name(self) -> &'static str
        ensures { result.now ≡ key_name self }
    {
        match self {
            Key::Licences => "licences",
            Key::Mask => "mask",
            Key::JournalLimit => "journal_limit",
            Key::Port => "port",
            Key::Unit => "unit",
            Key::Lose => "lose",
            Key::Event => "event",
            Key::Teqd => "teqd",
            Key::MaxUnits => "max_units",
            Key::AllocLast => "alloc_last",
            Key::Cycles => "cycles",
            Key::SearchPeriod => "search_period",
            Key::Quarantine => "quarantine",
            Key::Overhead => "overhead",
            Key::Admit => "admit",
            Key::Serial => "serial",
            Key::Delay => "delay",
            Key::Random => "random",
            Key::Copy => "copy",
            Key::Burst => "burst",
            Key::Frames => "frames",
            Key::At => "at",
            Key::Say => "say",
            Key::Command => "command",
            Key::Light => "light",
            Key::Onu => "onu",
            Key::Id => "id",
            Key::Alloc => "alloc",
        }
    }
}

/// A table of a script: the top, or one of a list, counted from 0.
#[derive(Clone, Copy, Debug, PartialEq, Eq)]
pub enum TablePlace {
    Top,
    Port(usize),
    Unit(usize),
    Lose(usize),
    Event(usize),
}

/// A spot of a table: the whole table, the value at a key, or an item of the list at a key, counted from 0.
#[derive(Clone, Copy, Debug, PartialEq, Eq)]
pub enum Spot {
    Table,
    Key(Key),
    Item(Key, usize),
}

/// What is counted.
#[derive(Clone, Copy, Debug, PartialEq, Eq)]
pub enum Counted {
    Tables,
    Serials,
}

/// What is wanted where something else stands or nothing does.
#[derive(Clone, Copy, Debug, PartialEq, Eq)]
pub enum Wanted {
    /// A value: the key has to be there.
    Value,
    Number,
    Text,
    /// `true` or `false`.
    Truth,
    List,
    Table,
    /// A form of an event, which is told by a key.
    Form,
    /// A word that is known.
    Word,
    /// Either a copy or a burst.
    OneLoss,
    /// Simulated units, without which this may not stand.
    Units,
    /// No simulated units: a storm has none.
    NoUnits,
    /// One port, beside which alone units may stand.
    OnePort,
    /// A number from `low` to `high`.
    Range {
        low: u64,
        high: u64,
    },
    /// So many items, from `low` to `high`.
    Count {
        counted: Counted,
        low: u64,
        high: u64,
    },
    /// The number of a mask, 0 or 85.
    MaskNumber,
    /// A text that spells a serial number.
    SerialText,
    /// So many hex digits.
    Digits(usize),
    /// A serial number that is not admitted yet, as this one is on this port.
    NewSerial {
        port: usize,
    },
}
