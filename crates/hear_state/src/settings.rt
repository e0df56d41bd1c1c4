//! What delays are judged by.

/// What delays are judged by, in bit times, and for how many frames behind a message a unit may still do as before.
#[derive(Clone, Copy, Debug, PartialEq, Eq)]
pub struct Settings {
    /// The equalized round-trip delay.
    pub teqd: u32,
    /// By how much an equalization delay may miss what the delays of its unit leave of the equalized one.
    pub tolerance: u32,
    /// By how much a unit may drift.
    pub drift: u32,
    /// In frames.
    pub grace: u32,
}
