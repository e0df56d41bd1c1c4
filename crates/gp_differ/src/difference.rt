//! The parts that two lines may differ in.

/// The first part in which a line differs from the one that the machine says in its place.
#[derive(Clone, Copy, Debug, PartialEq, Eq)]
pub enum Difference {
    /// They look alike: one has a space, a tab or a carriage return that the other doesn't have there.
    Blank,
    /// The port: it is spelled otherwise.
    Port,
    /// The number of the entry.
    Number,
    /// The event: it is spelled otherwise.
    Event,
    /// What the port replied.
    Reply,
    /// The message that was sent.
    Sent,
    /// The grant.
    Grant,
    /// The alarm.
    Alarm,
}
