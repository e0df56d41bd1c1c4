//! The queue of the messages that a port owes: their copies are sent in the order in which the messages were owed. It
//! has room for 64, taken when it is made.
ghost use Rattle.std.specs.Prelude.{◌≡◌, ◌+◌, ◌≤◌, ◌↔◌, [], ◌++◌, drop, length, slice_get, Contains, IfOk, IsTrue};
ghost use Rattle.gp_volley.specs.Copies.{all_copies, copies_each, first_of, max_copies, max_copies_with_room, max_messages};

use super::volley::{COPIES, Volley};
use gp_linear::NeverDropped;
use gp_ploam::Down;
use std::alloc::{AllocError, Global};
use std::collections::VecDeque;
use std::marker::Model;
use thiserror::Error;

/// How many messages there is room for (this profile's own rule).
pub const MAX_MESSAGES: usize = 64;

/// How many copies there is room for: 192.
pub const MAX_COPIES: usize = MAX_MESSAGES * COPIES as usize;

/// How many copies may be owed with room left for those of one message more: 189.
pub const MAX_COPIES_WITH_ROOM: usize = MAX_COPIES - COPIES as usize;

/// States that the constants are the numbers that contracts have for them.
pub fn copies_are_limited()
    ensures each { COPIES ≡ copies_each }
    ensures messages { MAX_MESSAGES ≡ max_messages }
    ensures copies { MAX_COPIES ≡ max_copies }
    ensures with_room { MAX_COPIES_WITH_ROOM ≡ max_copies_with_room }
{}

/// Why no queue was made.
#[derive(Clone, Copy, Debug, PartialEq, Eq, Error)]
pub enum QueueFault {
    /// The allocator refused memory for the messages.
    #[error("out of memory")]
    OutOfMemory,
}

impl From<AllocError> for QueueFault {
    ghost use Rattle.gp_volley.specs.declared.queue.QueueFault.{QueueFault};

    ghost from_gives = { λ _ fault. fault ≡ QueueFault.OutOfMemory };

    fn from(_error: AllocError) -> QueueFault {
        QueueFault::OutOfMemory
    }
}

/// The copies of messages that are owed, in the order in which they are sent. There is room for those of
/// `MAX_MESSAGES` messages. It is no `Drop`: it ends by `close`.
pub struct VolleyQueue {
    pub(super) volleys: VecDeque<Volley>,
}

impl NeverDropped for VolleyQueue {}

impl Model for VolleyQueue {
    ghost use Rattle.std.specs.Prelude.{List, ◌≤◌, length};
    ghost use Rattle.std.specs.VecDeque.{deque_capacity};
    ghost use Rattle.gp_ploam.specs.declared.message.Down.{Down};
    ghost use Rattle.gp_volley.specs.Copies.{max_messages};
    ghost use Rattle.gp_volley.specs.Queue.{IsInOrder, copies_of};

    ghost Value = { List Down };

    ghost view = { λ q. copies_of q.volleys.items };

    ghost invariant = { λ q. IsInOrder q.volleys.items × (length q.volleys.items ≤ max_messages)
        × (max_messages ≤ deque_capacity q.volleys) };
}

impl VolleyQueue {
    /// Makes a queue that owes nothing. No later call takes memory.
    pub fn begin(alloc: Global) -> Result<VolleyQueue, QueueFault>
        ensures { IfOk result (λ q. q ≡ []) }
    {
        let volleys = VecDeque::with_capacity(alloc, MAX_MESSAGES)?;
        Ok(VolleyQueue { volleys })
    }

    /// Owes a message: three copies after all others. There must be room: at most `MAX_COPIES_WITH_ROOM` are owed.
    pub fn owe(&mut self, message: Down)
        requires { length self.old + copies_each ≤ max_copies }
        ensures { self.new ≡ self.old ++ all_copies message }
    {
        self.volleys.push_back_reserved(Volley::begin(message));
    }

    /// Takes out the first copy, to be sent.
    pub fn send_one(&mut self) -> Option<Down>
        ensures first { result ≡ first_of self.old }
        ensures rest { self.new ≡ drop 1 self.old }
    {
        let (copy, rest) = self.volleys.pop_front()?.send();
        if let Some(volley) = rest {
            self.volleys.push_front_reserved(volley);
        }
        Some(copy)
    }

    /// Counts the copies that are owed, 0 to 192.
    pub fn len_copies(&self) -> usize
        ensures len { result ≡ length self.now }
        ensures room { result ≤ max_copies }
    {
        match self.volleys.front() {
            Some(volley) => usize::from(volley.left()) + COPIES as usize * (self.volleys.len() - 1),
            None => 0,
        }
    }

    /// Gives the copy with `i` others before it, if so many are owed.
    pub fn copy_at(&self, i: usize) -> Option<Down>
        ensures { result ≡ slice_get self.now i }
    {
        let first = self.volleys.front()?;
        let left = usize::from(first.left());
        if i < left {
            return Some(first.message());
        }
        let volley = self.volleys.get(1 + (i - left) / COPIES as usize)?;
        Some(volley.message())
    }

    /// Tells whether a copy of this message is owed. It looks at up to 64 messages.
    pub fn owes(&self, message: &Down) -> bool
        ensures { IsTrue result ↔ Contains self.now message.now }
    {
        self.volleys
            .iter()
            .any(|volley| volley.message() == *message)
    }

    /// Ends the queue; what it still owes is not sent.
    pub fn close(self) {
        let VolleyQueue { mut volleys } = self;
        while let Some(volley) = volleys.pop_front() {
            let (_message, _left) = volley.close();
        }
        volleys.destroy_empty();
    }
}
