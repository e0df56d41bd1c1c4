//! Why a call is refused, by the number that C is told. The chassis is then as it was, and nothing is written.
ghost use Rattle.std.specs.Prelude.{◌≡◌};
ghost use Rattle.gp_c.specs.Faults.{fault_number, status_text};

/// Why a call is refused. The chassis is then as it was, and nothing is written to what the caller passed.
#[derive(Clone, Copy, Debug, PartialEq, Eq)]
pub enum Fault {
    /// The handle is closed.
    NotOpen,
    /// The handle is open already.
    IsOpen,
    /// The configuration is outside its limits, or admits a serial number twice.
    Limit,
    /// The allocator refused memory.
    OutOfMemory,
    /// There is no such port.
    NoPort,
    /// The journal of the port keeps as many entries as it may.
    JournalFull,
    /// No active unit of the port has this serial number.
    NoUnit,
    /// There is no command of this kind.
    NoCommand,
    /// The ports do not admit as many serial numbers as are given.
    Serials,
    /// There is no event of this kind.
    NoEvent,
    /// Of a line: a word is unknown, or parts are missing or too many.
    LineWord,
    /// Of a line: a number has a character that is no decimal digit, or none at all.
    LineNumber,
    /// Of a line: a text spells no serial number.
    LineSerial,
    /// Of a line: a code isn't 26 hexadecimal digits.
    LineHex,
    /// Of a line: a number is outside its range.
    LineRange,
    /// Of a line: it has more than 4,096 octets.
    LineLong,
    /// The journal of the port keeps no entry with this number.
    NoEntry,
    /// Of a line: there is a space too many, at its front, at its end, or beside another one.
    LineSpace,
}

impl Fault {
    /// Gives the number that the caller is told, 1 to 17; 0 is told where a call is done.
    pub fn number(self) -> u32
        ensures { result ≡ fault_number self }
    {
        match self {
            Fault::NotOpen => 1,
            Fault::IsOpen => 2,
            Fault::Limit => 3,
            Fault::OutOfMemory => 4,
            Fault::NoPort => 5,
            Fault::JournalFull => 6,
            Fault::NoUnit => 7,
            Fault::NoCommand => 8,
            Fault::Serials => 9,
            Fault::NoEvent => 10,
            Fault::LineWord => 11,
            Fault::LineNumber => 12,
            Fault::LineSerial => 13,
            Fault::LineHex => 14,
            Fault::LineRange => 15,
            Fault::LineLong => 16,
            Fault::NoEntry => 17,
            Fault::LineSpace => 18,
        }
    }
}

/// Gives a status in words.
pub(crate) fn text_of(status: u32) -> &'static str
    ensures { result.now ≡ status_text status }
{
    match status {
        0 => "done",
        1 => "the handle is closed",
        2 => "the handle is open",
        3 => "outside the limits",
        4 => "out of memory",
        5 => "no such port",
        6 => "journal full",
        7 => "no such unit",
        8 => "no such command",
        9 => "serial numbers too few or too many",
        10 => "no such event",
        11 => "line: word",
        12 => "line: number",
        13 => "line: serial",
        14 => "line: hex",
        15 => "line: range",
        16 => "line: long",
        17 => "no such entry",
        18 => "line: space",
        _ => "no such status",
    }
}
