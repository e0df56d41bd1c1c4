//! The timers, by their names: the one that is due first is told, of those due in one frame the least name. After
//! `begin` no call takes memory.
ghost use Rattle.std.specs.Prelude.{◌≡◌, ◌<◌, ◌↔◌, IfOk, IfSome, IfNone, IsNone, is_some};
ghost use Rattle.std.specs.FinMap as map;
ghost use Rattle.gp_timers.specs.Timers.{IsFirstDue, NoneIsDue};

use super::queue::Queue;
use std::alloc::{AllocError, Global};
use std::marker::Model;
use thiserror::Error;

/// Why no wheel was made.
#[derive(Clone, Copy, Debug, PartialEq, Eq, Error)]
pub enum TimerFault {
    /// The allocator refused memory for the timers.
    #[error("out of memory")]
    OutOfMemory,
}

impl From<AllocError> for TimerFault {
    ghost use Rattle.gp_timers.specs.declared.wheel.TimerFault.{TimerFault};

    ghost from_gives = { λ _ fault. fault ≡ TimerFault.OutOfMemory };

    fn from(_error: AllocError) -> TimerFault {
        TimerFault::OutOfMemory
    }
}

/// Timers under names from 0 on, each set for a frame or not set.
///
/// To set a timer for one of the eight frames that come next, to cancel it and to take it out touches a few words. For
/// another frame that takes time in the logarithm of the number of names. To learn that none is due takes a few
/// comparisons.
#[derive(Drop)]
pub struct Wheel {
    queue: Queue,
}

impl Model for Wheel {
    ghost use Rattle.gp_timers.specs.Timers.{Timers};
    ghost use Rattle.std.specs.Coded.{codes, coded_ℕ};
    ghost use Rattle.std.specs.Ordering.{nat_cmp};
    ghost use Rattle.std.specs.FinMap as map;
    ghost use Rattle.gp_timers.specs.Queues.{IsInOrder, timers_at};

    ghost Value = { Timers };

    ghost coded = { Prim.hlevel (codes, map.code {R = nat_cmp} coded_ℕ coded_ℕ) };

    ghost view = { λ a. timers_at a.queue.places.items };

    ghost invariant = { λ a. IsInOrder a.queue };
}

impl Wheel {
    /// Makes a wheel for the names from 0 to `names - 1`, none of them set. No later call takes memory.
    pub fn begin(alloc: Global, names: u16) -> Result<Wheel, TimerFault>
        ensures { IfOk result (λ w. w ≡ record { names = names; frames = map.empty }) }
    {
        let queue = Queue::begin(alloc, names)?;
        Ok(Wheel { queue })
    }

    /// Sets a timer for a frame, in place of the one that it was set for.
    pub fn set(&mut self, name: u16, frame: u64)
        requires { name < self.old.names }
        ensures { self.new ≡ record self.old { frames = map.insert self.old.frames name frame } }
    {
        let queue = &mut self.queue;
        if queue.is_near(frame) {
            queue.lift(name);
            queue.put_near(name, frame);
        } else {
            queue.lift_unless_far(name);
            queue.put_far(name, frame);
        }
    }

    /// Makes sure that a timer is not set, and tells whether it was.
    pub fn cancel(&mut self, name: u16) -> bool
        ensures was_set { result ≡ is_some (map.get self.old.frames name) }
        ensures removed { self.new ≡ record self.old { frames = map.remove self.old.frames name } }
    {
        if usize::from(name) >= self.queue.places.len() {
            return false;
        }
        let was_set = self.queue.places[usize::from(name)].is_set();
        self.queue.lift(name);
        was_set
    }

    /// Takes out the first timer that is due by a frame: the earliest, and among those of one frame the least name.
    pub fn due(&mut self, frame: u64) -> Option<u16>
        ensures none { IsNone result ↔ NoneIsDue self.old.frames frame }
        ensures first { IfSome result (IsFirstDue self.old.frames frame) }
        ensures taken { IfSome result (λ name. self.new
            ≡ record self.old { frames = map.remove self.old.frames name }) }
        ensures kept { IfNone result (self.new ≡ self.old) }
    {
        self.queue.advance(frame);
        let first = self.queue.first_due(frame)?;
        self.queue.lift(first);
        Some(first)
    }
}
