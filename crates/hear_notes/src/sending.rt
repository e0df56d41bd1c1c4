//! What was sent last about one thing, and how often.
ghost use Rattle.std.specs.Prelude.{◌≡◌, ◌<◌, ◌^◌, ◌-◌, ◌↔◌, IfOk, IsOk, IfErr, not};
ghost use Rattle.hear_rules.specs.Facts as facts;
ghost use Rattle.hear_rules.specs.Copies as copies;
ghost use Rattle.hear_rules.specs.Units as units;
ghost use Rattle.hear_notes.specs.declared.fault.NoteFault.{NoteFault};
ghost use Rattle.hear_notes.specs.Sendings.{another_of, sending_of, tally_of};

use crate::fault::NoteFault;
use gp_ploam::Down;

/// For how many frames the next copy may come (this profile's own rule).
const COPIES_WITHIN: u64 = 800;

/// What was sent last about something, and in which frame its last copy came.
#[derive(Clone, Copy, Debug, PartialEq, Eq)]
pub(crate) enum Sending {
    /// It isn't known: the log begins in the middle.
    Cut,
    /// Nothing, or it was ended.
    Silent,
    Once { message: Down, at: u64 },
    Twice { message: Down, at: u64 },
    /// Three times or more, or it isn't known how often, or a copy came too late.
    Said { message: Down },
}

/// Whether a message is another than the one that was sent last.
#[derive(Clone, Copy, Debug, PartialEq, Eq)]
pub(crate) enum Another {
    Yes,
    No,
    Unsure,
}

impl Another {
    /// Yes if this is so, no if not.
    fn unless(same: bool) -> Another
        ensures { another_of result ≡ facts.sure (not same) }
    {
        if same { Another::No } else { Another::Yes }
    }
}

impl Sending {
    /// What was sent last once a message about the same thing is sent in this frame.
    pub(crate) fn after(self, now: u64, message: &Down) -> Sending
        ensures { sending_of result ≡ copies.sending_after (sending_of self) now message.now }
    {
        match self {
            Sending::Cut => Sending::Said { message: *message },
            Sending::Once { message: last, at } if last == *message => {
                if at.saturating_add(COPIES_WITHIN) < now {
                    Sending::Said { message: last }
                } else {
                    Sending::Twice {
                        message: last,
                        at: now,
                    }
                }
            }
            Sending::Twice { message: last, .. } | Sending::Said { message: last }
                if last == *message => { Sending::Said { message: last } }
            _ => Sending::Once {
                message: *message,
                at: now,
            },
        }
    }

    /// Whether a message isn't a copy of what was sent last.
    pub(crate) fn is_another(&self, message: &Down) -> Another
        ensures { another_of result ≡ copies.is_another (sending_of self.now) message.now }
    {
        match self {
            Sending::Cut => Another::Unsure,
            Sending::Silent => Another::Yes,
            Sending::Once { message: last, .. }
            | Sending::Twice { message: last, .. }
            | Sending::Said { message: last } => Another::unless(last == message),
        }
    }

    /// What is left of it where another message ends it.
    pub(crate) fn ended_where(self, another: Another) -> Sending
        ensures { sending_of result ≡ copies.ended_where (another_of another) (sending_of self) }
    {
        match another {
            Another::Yes => Sending::Silent,
            Another::No => self,
            Another::Unsure => Sending::Cut,
        }
    }

    /// Whether its next copy is to come, and is late.
    pub(crate) fn is_overdue(&self, now: u64) -> bool
        ensures { result ≡ copies.is_overdue (sending_of self.now) now }
    {
        match self {
            Sending::Once { at, .. } | Sending::Twice { at, .. } => {
                at.saturating_add(COPIES_WITHIN) < now
            }
            Sending::Cut | Sending::Silent | Sending::Said { .. } => false,
        }
    }
}

/// How often something was said about something.
#[derive(Clone, Copy, Debug, PartialEq, Eq)]
pub(crate) enum Tally {
    /// Nothing was.
    Untold,
    Told {
        /// The last message.
        message: Down,
        /// How often others were said before it.
        before: u64,
        /// How often it was.
        times: u64,
        /// In which frame last.
        last: u64,
    },
}

impl Tally {
    /// How often once a message about the same thing is said in this frame. Fails only where all were 2^64 - 1.
    pub(crate) fn after(self, now: u64, message: &Down) -> Result<Tally, NoteFault>
        ensures tells { IfOk result (λ tally. tally_of tally ≡ units.tally_after (tally_of self) now message.now) }
        ensures room { IsOk result ↔ (units.total (tally_of self) < 2 ^ 64 - 1) }
        ensures fails { IfErr result (λ fault. fault ≡ NoteFault.Full) }
    {
        let Tally::Told {
            message: said,
            before,
            times,
            ..
        } = self
        else {
            return Ok(Tally::Told {
                message: *message,
                before: 0,
                times: 1,
                last: now,
            });
        };
        let total = before.saturating_add(times);
        if total == u64::MAX {
            return Err(NoteFault::Full);
        }
        if said == *message {
            Ok(Tally::Told {
                message: said,
                before,
                times: times + 1,
                last: now,
            })
        } else {
            Ok(Tally::Told {
                message: *message,
                before: total,
                times: 1,
                last: now,
            })
        }
    }

    /// Whether one message alone was said since there were so many, three times or more, and its unit had the time to
    /// act.
    pub(crate) fn is_settled(&self, grace: u32, now: u64, base: u64) -> bool
        ensures { result ≡ units.is_settled grace now base (tally_of self.now) }
    {
        match *self {
            Tally::Untold => false,
            Tally::Told {
                before,
                times,
                last,
                ..
            } => {
                before <= base
                    && times >= 3
                    && times - 3 >= base - before
                    && last.saturating_add(u64::from(grace)) < now
            }
        }
    }
}
