//! What stands where in a line of a trace.
ghost use Rattle.std.specs.Prelude.{◌≡◌};
ghost use Rattle.gp_json.specs.Slots as spec;

/// What stands at a part of a line.
#[derive(Clone, Copy, Debug, PartialEq, Eq)]
pub enum Slot {
    /// The port.
    Port,
    /// How many entries the port had before.
    Number,
    /// What happened.
    Event,
    /// The round-trip delay of a burst, in bit times.
    At,
    /// The code of a burst.
    Code,
    /// The serial number of a command.
    Serial,
    /// The same behind `dealloc`.
    DeallocSerial,
    /// The Alloc-ID behind it.
    Dealloc,
    /// The `=` before the answer.
    Equals,
    /// The reply.
    Reply,
    /// The ONU-ID of a reply.
    Onu,
    /// The Alloc-ID of a reply.
    Alloc,
    /// The number of a refusal.
    Refusal,
    /// Its name.
    Reason,
    /// The ONU-ID behind `ranged`.
    RangedOnu,
    /// The equalization delay behind it, in bit times.
    Eqd,
    /// How many units.
    Count,
    /// The ONU-ID behind `unit`.
    UnitOnu,
    /// Whether it ranges or operates.
    Phase,
    /// Its ranging windows without a result.
    Attempts,
    /// Its equalization delay, in bit times.
    UnitEqd,
    /// The word before its further Alloc-IDs.
    AllocsWord,
    /// Its further Alloc-IDs.
    Allocs,
    /// What stands behind a reply: a word, or nothing.
    Behind,
    /// The code of a message that was sent.
    Sent,
    /// What stands behind it: a word, or nothing.
    BehindSent,
    /// The grant.
    Grant,
    /// Its ONU-ID.
    GrantOnu,
    /// What stands behind it: a word, or nothing.
    BehindGrant,
    /// The kind of an alarm.
    Alarm,
    /// Its serial number.
    AlarmSerial,
    /// The end of the line.
    End,
    /// Nothing that a trace tells.
    Unknown,
}

/// What a part is told as.
#[derive(Clone, Copy, Debug, PartialEq, Eq)]
pub enum Kind {
    /// A number.
    Number,
    /// A text.
    Text,
    /// The code of a unit's message, and the message.
    UnitCode,
    /// The code of a message of the line terminal, and the message.
    TerminalCode,
    /// Alloc-IDs.
    Allocs,
    /// Nothing.
    Silent,
    /// No part can stand there.
    Unknown,
}

impl Slot {
    /// Gives what the part there is told as.
    pub(crate) fn kind(self) -> Kind
        ensures { result ≡ spec.kind_of self }
    {
        match self {
            Slot::Port
            | Slot::Number
            | Slot::At
            | Slot::Dealloc
            | Slot::Onu
            | Slot::Alloc
            | Slot::Refusal
            | Slot::RangedOnu
            | Slot::Eqd
            | Slot::Count
            | Slot::UnitOnu
            | Slot::Attempts
            | Slot::UnitEqd
            | Slot::GrantOnu => Kind::Number,
            Slot::Event
            | Slot::Serial
            | Slot::DeallocSerial
            | Slot::Reply
            | Slot::Reason
            | Slot::Phase
            | Slot::Grant
            | Slot::Alarm
            | Slot::AlarmSerial => Kind::Text,
            Slot::Code => Kind::UnitCode,
            Slot::Sent => Kind::TerminalCode,
            Slot::Allocs => Kind::Allocs,
            Slot::Equals | Slot::AllocsWord | Slot::Behind | Slot::BehindSent | Slot::BehindGrant =>
                Kind::Silent,
            Slot::End | Slot::Unknown => Kind::Unknown,
        }
    }

    /// Tells whether a line may end there.
    pub(crate) fn is_end(self) -> bool
        ensures { result ≡ spec.may_end self }
    {
        matches!(
            self,
            Slot::Behind | Slot::BehindSent | Slot::BehindGrant | Slot::End
        )
    }

    /// Gives what stands behind a part that stands here.
    pub(crate) fn after(self, part: &[u8]) -> Slot
        ensures { result ≡ spec.slot_after self part.now }
    {
        match self {
            Slot::Event => after_event(part),
            Slot::Equals => after_equals(part),
            Slot::Reply => after_reply(part),
            Slot::Phase => after_phase(part),
            Slot::AllocsWord => after_allocs_word(part),
            Slot::Behind => after_reply_end(part),
            Slot::BehindSent => after_sent(part),
            Slot::BehindGrant => after_granted(part),
            Slot::Grant => after_grant(part),
            _ => self.next(),
        }
    }

    /// The same where the part doesn't matter.
    fn next(self) -> Slot
        ensures { result ≡ spec.next self }
    {
        match self {
            Slot::Port => Slot::Number,
            Slot::Number => Slot::Event,
            Slot::At => Slot::Code,
            Slot::Code | Slot::Serial | Slot::Dealloc => Slot::Equals,
            Slot::DeallocSerial => Slot::Dealloc,
            Slot::Onu | Slot::Alloc | Slot::Count | Slot::Eqd | Slot::Reason | Slot::Allocs =>
                Slot::Behind,
            Slot::RangedOnu => Slot::Eqd,
            Slot::Refusal => Slot::Reason,
            Slot::UnitOnu => Slot::Phase,
            Slot::Attempts | Slot::UnitEqd => Slot::AllocsWord,
            Slot::Sent => Slot::BehindSent,
            Slot::GrantOnu => Slot::BehindGrant,
            Slot::Alarm => Slot::AlarmSerial,
            Slot::AlarmSerial => Slot::End,
            _ => Slot::Unknown,
        }
    }
}

/// Gives what stands behind a word behind a reply.
fn after_reply_end(part: &[u8]) -> Slot
    ensures { result ≡ spec.after_answer Slot.Behind part.now }
{
    match part {
        b"sent" => Slot::Sent,
        b"grant" => Slot::Grant,
        b"alarm" => Slot::Alarm,
        _ => Slot::Unknown,
    }
}

/// Gives what stands behind a word behind a message that was sent.
fn after_sent(part: &[u8]) -> Slot
    ensures { result ≡ spec.after_answer Slot.BehindSent part.now }
{
    match part {
        b"grant" => Slot::Grant,
        b"alarm" => Slot::Alarm,
        _ => Slot::Unknown,
    }
}

/// Gives what stands behind a word behind a grant.
fn after_granted(part: &[u8]) -> Slot
    ensures { result ≡ spec.after_answer Slot.BehindGrant part.now }
{
    match part {
        b"alarm" => Slot::Alarm,
        _ => Slot::Unknown,
    }
}

/// Gives what stands behind the word of an event.
#[tactic(auto, unfolding(crate::specs::Slots::after_event))]
fn after_event(part: &[u8]) -> Slot
    ensures { result ≡ spec.after_event part.now }
{
    match part {
        b"frame" => Slot::Equals,
        b"burst" => Slot::At,
        b"search" => Slot::Equals,
        b"alloc" => Slot::Serial,
        b"dealloc" => Slot::DeallocSerial,
        b"deactivate" => Slot::Serial,
        b"disable" => Slot::Serial,
        b"enable" => Slot::Serial,
        b"enable-all" => Slot::Equals,
        b"popup" => Slot::Serial,
        b"popup-all" => Slot::Equals,
        b"show" => Slot::Serial,
        _ => Slot::Unknown,
    }
}

/// Gives what stands behind the word before an answer.
#[tactic(auto, unfolding(crate::specs::Slots::after_equals))]
fn after_equals(part: &[u8]) -> Slot
    ensures { result ≡ spec.after_equals part.now }
{
    match part {
        b"=" => Slot::Reply,
        _ => Slot::Unknown,
    }
}

/// Gives what stands behind the word of a reply.
#[tactic(auto, unfolding(crate::specs::Slots::after_reply))]
fn after_reply(part: &[u8]) -> Slot
    ensures { result ≡ spec.after_reply part.now }
{
    match part {
        b"ok" => Slot::Behind,
        b"searching" => Slot::Behind,
        b"found" => Slot::Onu,
        b"again" => Slot::Onu,
        b"repeat" => Slot::Onu,
        b"ranged" => Slot::RangedOnu,
        b"too-far" => Slot::Onu,
        b"still-ranging" => Slot::Onu,
        b"restarted" => Slot::Onu,
        b"disabled-seen" => Slot::Behind,
        b"alive" => Slot::Onu,
        b"acked" => Slot::Alloc,
        b"gasp" => Slot::Onu,
        b"allocated" => Slot::Alloc,
        b"releasing" => Slot::Alloc,
        b"deactivated" => Slot::Onu,
        b"disabled" => Slot::Behind,
        b"enabled" => Slot::Behind,
        b"enabled-all" => Slot::Behind,
        b"popped-up" => Slot::Onu,
        b"popped-up-all" => Slot::Count,
        b"unit" => Slot::UnitOnu,
        b"refused" => Slot::Refusal,
        _ => Slot::Unknown,
    }
}

/// Gives what stands behind the word of a phase.
#[tactic(auto, unfolding(crate::specs::Slots::after_phase))]
fn after_phase(part: &[u8]) -> Slot
    ensures { result ≡ spec.after_phase part.now }
{
    match part {
        b"ranging" => Slot::Attempts,
        b"operating" => Slot::UnitEqd,
        _ => Slot::Unknown,
    }
}

/// Gives what stands behind the word before Alloc-IDs.
#[tactic(auto, unfolding(crate::specs::Slots::after_allocs_word))]
fn after_allocs_word(part: &[u8]) -> Slot
    ensures { result ≡ spec.after_allocs_word part.now }
{
    match part {
        b"allocs" => Slot::Allocs,
        _ => Slot::Unknown,
    }
}

/// Gives what stands behind the word of a grant.
#[tactic(auto, unfolding(crate::specs::Slots::after_grant))]
fn after_grant(part: &[u8]) -> Slot
    ensures { result ≡ spec.after_grant part.now }
{
    match part {
        b"search" => Slot::BehindGrant,
        b"range" => Slot::GrantOnu,
        b"poll" => Slot::GrantOnu,
        _ => Slot::Unknown,
    }
}
