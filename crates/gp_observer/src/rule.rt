//! The rules that a message or a grant may break.

/// A rule that a message or a grant may break, of the line terminal or of a unit; `Garbled` is of both.
/// `specs/Rules.antt`, `UnitRules.antt` and `Heard.antt` say where each is broken.
#[derive(Clone, Copy, Debug, PartialEq, Eq)]
pub enum Rule {
    /// A code has a wrong check octet.
    Garbled,
    /// Another message began before the copies of the one before it were three, six, and so on.
    Copies,
    /// An ONU-ID above 253, or a further Alloc-ID below 256, is given.
    Range,
    /// A disabled serial number gets an ONU-ID.
    Barred,
    /// A serial number gets an ONU-ID that it didn't ask for.
    Unasked,
    /// An ONU-ID is given that another unit holds.
    Taken,
    /// A unit gets an ONU-ID that holds another.
    Renumbered,
    /// A message is to an ONU-ID that nobody holds.
    Nobody,
    /// A unit gets an equalization delay whose serial number was not heard with its ONU-ID.
    Unranged,
    /// An equalization delay is not what an answer's delay leaves.
    Delay,
    /// A unit is told of an Alloc-ID, or of POPUP, that doesn't operate yet.
    Early,
    /// An Alloc-ID is given that another unit has.
    Shared,
    /// An Alloc-ID is taken back that the unit doesn't have.
    NotHeld,
    /// A window is opened for an ONU-ID that nobody holds, or a poll window for a unit that doesn't operate yet.
    Grant,
    /// A disabled unit asks for an ONU-ID.
    Disabled,
    /// A unit asks for an ONU-ID that holds one.
    Anew,
    /// A unit speaks with an ONU-ID that it doesn't hold.
    Number,
    /// A unit acknowledges an Alloc-ID of which it wasn't told.
    Acknowledge,
    /// A unit's delay is not near the one that it was ranged with.
    Drift,
}
