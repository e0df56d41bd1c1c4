//! Mistakes that a script may have, each of one kind of fault, and where they stand.
ghost use Rattle.std.specs.Prelude.{◌≡◌, ◌≤◌};
ghost use Rattle.gp_generate.specs.Mistakes as spec;

use crate::plan::Plan;

/// A mistake. Each but the last is an event that is wrong in one place.
#[derive(Clone, Copy, Debug, PartialEq, Eq)]
pub enum Mistake {
    /// The name of the table isn't closed.
    UnclosedBracket,
    /// A text isn't closed.
    UnclosedText,
    /// A key has no value.
    NoValue,
    /// A key stands twice.
    KeyTwice,
    /// A key is unknown.
    UnknownKey,
    /// The port is missing.
    NoPort,
    /// A command is unknown.
    UnknownWord,
    /// A number is a text.
    TextForNumber,
    /// A key is one too many.
    KeyTooMany,
    /// No frame goes by.
    NoFrames,
    /// One frame more than may.
    TooManyFrames,
    /// No port has this number.
    NoSuchPort,
    /// The delay has more than 32 bits.
    TooFarAway,
    /// The ONU-ID is no octet.
    NoSuchOnu,
    /// A serial number has a digit too few.
    ShortSerial,
    /// A vendor code is in lower case.
    LowerVendor,
    /// A digit of a serial number is none.
    NoDigit,
    /// A code has two digits too few.
    ShortCode,
    /// A digit of a code is none.
    NoHexDigit,
    /// A serial number is admitted twice.
    AdmittedTwice,
}

/// All mistakes, in the order in which they come.
pub const MISTAKES: [Mistake; 20] = [
    Mistake::UnclosedBracket,
    Mistake::UnclosedText,
    Mistake::NoValue,
    Mistake::KeyTwice,
    Mistake::UnknownKey,
    Mistake::NoPort,
    Mistake::UnknownWord,
    Mistake::TextForNumber,
    Mistake::KeyTooMany,
    Mistake::NoFrames,
    Mistake::TooManyFrames,
    Mistake::NoSuchPort,
    Mistake::TooFarAway,
    Mistake::NoSuchOnu,
    Mistake::ShortSerial,
    Mistake::LowerVendor,
    Mistake::NoDigit,
    Mistake::ShortCode,
    Mistake::NoHexDigit,
    Mistake::AdmittedTwice,
];

/// Gives the mistake that comes at this place among those of a script: they come in turn, from one that the seed tells.
pub(crate) fn mistake_by(seed: u64, number: u32) -> Mistake
    ensures { result ≡ spec.mistake_by MISTAKES seed number }
{
    let count = MISTAKES.len() as u64;
    MISTAKES[((seed % count + u64::from(number)) % count) as usize]
}

/// Gives the text of an event that is wrong so; that a serial number is admitted twice is said elsewhere.
pub(crate) fn mistake_text(mistake: Mistake) -> Option<&'static str>
    ensures { spec.IsMistakeText mistake result }
{
    match mistake {
        Mistake::UnclosedBracket => {
            Some(
                "# mistake 1 syntax: The name of the table isn't closed.\n[[event]\nport = 0\nframes = 1\n\n",
            )
        }
        Mistake::UnclosedText => {
            Some(
                "# mistake 1 syntax: A text isn't closed.\n[[event]]\nport = 0\ncommand = \"search\n\n",
            )
        }
        Mistake::NoValue => {
            Some("# mistake 1 syntax: A key has no value.\n[[event]]\nport =\nframes = 1\n\n")
        }
        Mistake::KeyTwice => {
            Some(
                "# mistake 1 syntax: A key stands twice.\n[[event]]\nport = 0\nframes = 1\nframes = 1\n\n",
            )
        }
        Mistake::UnknownKey => {
            Some("# mistake 2 shape: A key is unknown.\n[[event]]\nport = 0\nframe = 1\n\n")
        }
        Mistake::NoPort => {
            Some("# mistake 2 shape: The port is missing.\n[[event]]\nframes = 1\n\n")
        }
        Mistake::UnknownWord => {
            Some(
                "# mistake 2 shape: A command is unknown.\n[[event]]\nport = 0\ncommand = \"serach\"\n\n",
            )
        }
        Mistake::TextForNumber => {
            Some("# mistake 2 shape: A number is a text.\n[[event]]\nport = 0\nframes = \"1\"\n\n")
        }
        Mistake::KeyTooMany => {
            Some(
                "# mistake 2 shape: A key is one too many.\n[[event]]\nport = 0\ncommand = \"search\"\nonu = 0\n\n",
            )
        }
        Mistake::NoFrames => {
            Some("# mistake 3 range: No frame goes by.\n[[event]]\nport = 0\nframes = 0\n\n")
        }
        Mistake::TooManyFrames => {
            Some(
                "# mistake 3 range: One frame more than may.\n[[event]]\nport = 0\nframes = 1000001\n\n",
            )
        }
        Mistake::NoSuchPort => {
            Some(
                "# mistake 3 range: No port has this number.\n[[event]]\nport = 16\nframes = 1\n\n",
            )
        }
        Mistake::TooFarAway => {
            Some(
                "# mistake 3 range: The delay has more than 32 bits.\n\
                 [[event]]\nport = 0\nat = 4294967296\nsay = \"none\"\nonu = 0\n\n",
            )
        }
        Mistake::NoSuchOnu => {
            Some(
                "# mistake 3 range: The ONU-ID is no octet.\n\
                 [[event]]\nport = 0\nat = 0\nsay = \"none\"\nonu = 256\n\n",
            )
        }
        Mistake::ShortSerial => {
            Some(
                "# mistake 4 serial: A serial number has a digit too few.\n\
                 [[event]]\nport = 0\ncommand = \"show\"\nserial = \"ABCD0000000\"\n\n",
            )
        }
        Mistake::LowerVendor => {
            Some(
                "# mistake 4 serial: A vendor code is in lower case.\n\
                 [[event]]\nport = 0\ncommand = \"show\"\nserial = \"abcd00000000\"\n\n",
            )
        }
        Mistake::NoDigit => {
            Some(
                "# mistake 4 serial: A digit of a serial number is none.\n\
                 [[event]]\nport = 0\ncommand = \"show\"\nserial = \"ABCD0000000G\"\n\n",
            )
        }
        Mistake::ShortCode => {
            Some(
                "# mistake 5 hex: A code has two digits too few.\n\
                 [[event]]\nport = 0\nat = 0\nburst = \"000400000000000000000000\"\n\n",
            )
        }
        Mistake::NoHexDigit => {
            Some(
                "# mistake 5 hex: A digit of a code is none.\n\
                 [[event]]\nport = 0\nat = 0\nburst = \"000400000000000000000000g0\"\n\n",
            )
        }
        Mistake::AdmittedTwice => None,
    }
}

/// Gives the mistake that an event has, if it has one: of as many events as there are for each mistake the last.
pub(crate) fn mistake_at(plan: &Plan, event: u32) -> Option<Mistake>
    ensures { result ≡ spec.mistake_at MISTAKES plan.now event }
{
    let mistakes = plan.mistakes();
    if mistakes == 0 {
        return None;
    }
    let each = plan.events() / mistakes;
    if event % each == each - 1 && event / each < mistakes {
        Some(mistake_by(plan.seed(), event / each))
    } else {
        None
    }
}
