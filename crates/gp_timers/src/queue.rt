//! The timers of a wheel by their names, with the indexes that find the first one: slots for the frames that come next,
//! and a tournament for all others.
ghost use Rattle.std.specs.Prelude.{◌≡◌, ◌+◌, ◌*◌, ◌%◌, ◌<◌, ◌≤◌, ◌≢◌, ◌↔◌, ℕ, IfOk, IfSome, IfNone, IsNone, IsTrue, None, is_some, length, option_map};
ghost use Rattle.std.specs.FinMap as map;
ghost use Rattle.std.specs.Option.{ForSome};
ghost use Rattle.gp_numbers.specs.Least.{IsLeastFrom};
ghost use Rattle.gp_timers.specs.Timers.{IsFirstDue, NoneIsDue};
ghost use Rattle.gp_timers.specs.Queues.{IsFirstNear, IsInOrder, IsMoved, IsReached, NearAreAfter, frame_at, frames_from, place_of, slot_of, unless_near};
ghost use Rattle.gp_timers.specs.declared.queue.Place.TheVariants.{Far, Near, Unset};

use super::name_set::NameSet;
use super::tournament::{Timer, earlier, rewrite, winner};
use std::alloc::{AllocError, Global};

/// How many frames have a slot.
const SLOTS: u64 = 8;

/// Where the timer of a name is, with the frame that it is set for.
#[derive(Clone, Copy, Drop)]
pub enum Place {
    Unset,
    /// In the slot of its frame.
    Near(u64),
    /// In the tournament.
    Far(u64),
}

impl Place {
    /// Tells whether the name is set.
    pub fn is_set(self) -> bool
        ensures { result ≡ is_some (frame_at self) }
    {
        match self {
            Place::Unset => false,
            Place::Near(_) | Place::Far(_) => true,
        }
    }
}

/// Timers by their names.
///
/// `near` has a slot for each frame from `base` to `base + 7`, the slot of frame `f` at `f % 8`. A timer that is set
/// for one of these frames goes into its slot, and any other into `far`, where it stays.
#[derive(Drop)]
pub struct Queue {
    pub base: u64,
    pub places: Vec<Place>,
    pub near: Vec<NameSet>,
    pub far: Vec<Option<Timer>>,
}

impl Queue {
    /// Makes a queue for the names from 0 to `names - 1`, none of them set.
    pub fn begin(alloc: Global, names: u16) -> Result<Queue, AllocError>
        ensures order { IfOk result IsInOrder }
        ensures size { IfOk result (λ queue. length queue.places.items ≡ names) }
        ensures unset { IfOk result (λ queue. frames_from 0 queue.places.items ≡ map.empty) }
    {
        let mut near = Vec::with_capacity(alloc, SLOTS as usize)?;
        for _ in 0..SLOTS {
            near.push_reserved(NameSet::begin(alloc, names)?);
        }
        let places = vec![in alloc; Place::Unset; usize::from(names)]?;
        let far = vec![in alloc; None; 2 * usize::from(names)]?;
        Ok(Queue {
            base: 0,
            places,
            near,
            far,
        })
    }

    /// Tells whether a frame has a slot.
    pub fn is_near(&self, frame: u64) -> bool
        ensures from { IsTrue result → self.now.base ≤ frame }
        ensures to { IsTrue result → frame < self.now.base + 8 }
    {
        frame >= self.base && frame - self.base < SLOTS
    }

    /// Makes sure that a name is not set.
    pub fn lift(&mut self, name: u16)
        requires order { IsInOrder self.old }
        requires name { name < length self.old.places.items }
        ensures order { IsInOrder self.new }
        ensures base { self.new.base ≡ self.old.base }
        ensures moved { IsMoved self.old.places.items self.new.places.items name Unset }
    {
        match self.places[usize::from(name)] {
            Place::Unset => {}
            Place::Near(frame) => self.lift_near(name, frame),
            Place::Far(frame) => self.lift_far(name, frame),
        }
    }

    /// Makes sure that a name is in no slot.
    pub fn lift_unless_far(&mut self, name: u16)
        requires order { IsInOrder self.old }
        requires name { name < length self.old.places.items }
        ensures order { IsInOrder self.new }
        ensures base { self.new.base ≡ self.old.base }
        ensures moved { IsMoved self.old.places.items self.new.places.items name
            (unless_near (place_of self.old.places.items name)) }
    {
        if let Place::Near(frame) = self.places[usize::from(name)] {
            self.lift_near(name, frame);
        }
    }

    fn lift_near(&mut self, name: u16, frame: u64)
        requires order { IsInOrder self.old }
        requires name { name < length self.old.places.items }
        requires place { place_of self.old.places.items name ≡ Near frame }
        ensures order { IsInOrder self.new }
        ensures base { self.new.base ≡ self.old.base }
        ensures moved { IsMoved self.old.places.items self.new.places.items name Unset }
    {
        self.near[(frame % SLOTS) as usize].remove(name);
        self.places[usize::from(name)] = Place::Unset;
    }

    fn lift_far(&mut self, name: u16, frame: u64)
        requires order { IsInOrder self.old }
        requires name { name < length self.old.places.items }
        requires place { place_of self.old.places.items name ≡ Far frame }
        ensures order { IsInOrder self.new }
        ensures base { self.new.base ≡ self.old.base }
        ensures moved { IsMoved self.old.places.items self.new.places.items name Unset }
    {
        rewrite(&mut self.far, name, None);
        self.places[usize::from(name)] = Place::Unset;
    }

    /// Sets a name that is not set for a frame that has a slot.
    pub fn put_near(&mut self, name: u16, frame: u64)
        requires order { IsInOrder self.old }
        requires name { name < length self.old.places.items }
        requires place { place_of self.old.places.items name ≡ Unset }
        requires from { self.old.base ≤ frame }
        requires to { frame < self.old.base + 8 }
        ensures order { IsInOrder self.new }
        ensures moved { IsMoved self.old.places.items self.new.places.items name (Near frame) }
    {
        self.near[(frame % SLOTS) as usize].insert(name);
        self.places[usize::from(name)] = Place::Near(frame);
    }

    /// Sets a name that is in no slot for any frame.
    pub fn put_far(&mut self, name: u16, frame: u64)
        requires order { IsInOrder self.old }
        requires name { name < length self.old.places.items }
        requires place { unless_near (place_of self.old.places.items name) ≡ place_of self.old.places.items name }
        ensures order { IsInOrder self.new }
        ensures moved { IsMoved self.old.places.items self.new.places.items name (Far frame) }
    {
        rewrite(&mut self.far, name, Some(Timer { frame, name }));
        self.places[usize::from(name)] = Place::Far(frame);
    }

    /// Finds the first frame by this one in which a near timer is due.
    fn first_near(&self, frame: u64) -> Option<u64>
        requires order { IsInOrder self.now }
        requires from { self.now.base ≤ frame }
        ensures none { IfNone result (NearAreAfter self.now.places.items frame) }
        ensures first { IfSome result (IsFirstNear self.now) }
    {
        for ahead in 0..SLOTS {
            if frame - self.base < ahead {
                return None;
            }
            let at = self.base + ahead;
            if self.near[(at % SLOTS) as usize].least().is_some() {
                return Some(at);
            }
        }
        None
    }

    /// Moves the slots on to the first frame by this one in which a near timer is due, or to this frame.
    pub fn advance(&mut self, frame: u64)
        requires { IsInOrder self.old }
        ensures order { IsInOrder self.new }
        ensures places { self.new.places.items ≡ self.old.places.items }
        ensures reached { IsReached self.new frame }
    {
        if frame <= self.base {
            return;
        }
        match self.first_near(frame) {
            Some(at) => self.base = at,
            None => self.base = frame,
        }
    }

    /// Finds the first timer in the slot of frame `base`.
    fn first_at_base(&self) -> Option<Timer>
        requires { IsInOrder self.now }
        ensures name { IsLeastFrom (slot_of self.now.near.items (self.now.base % 8)).members 0
            (option_map (λ timer. timer.name) result) }
        ensures frame { ForSome result (λ timer. timer.frame ≡ self.now.base) }
    {
        let name = self.near[(self.base % SLOTS) as usize].least()?;
        Some(Timer {
            frame: self.base,
            name,
        })
    }

    /// Finds the first timer that is due by a frame to which the slots have been moved on.
    pub fn first_due(&self, frame: u64) -> Option<u16>
        requires order { IsInOrder self.now }
        requires reached { IsReached self.now frame }
        ensures none { IsNone result ↔ NoneIsDue (frames_from 0 self.now.places.items) frame }
        ensures first { IfSome result (IsFirstDue (frames_from 0 self.now.places.items) frame) }
        ensures name { IfSome result (λ name. name < length self.now.places.items) }
    {
        let first = earlier(self.first_at_base(), winner(&self.far))?;
        if first.frame > frame {
            return None;
        }
        Some(first.name)
    }
}
