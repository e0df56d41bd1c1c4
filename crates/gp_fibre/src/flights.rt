//! The bursts in flight in a run. A flag for each of five frames tells whether one may come in it, so that a frame in
//! which none comes looks at none.
ghost use Rattle.std.specs.Prelude.{◌≡◌, ◌+◌, ◌%◌, ◌<◌, ◌≤◌, ◌^◌, ◌++◌, ◌∷◌, [], All, false, OnOk, length};
ghost use Rattle.gp_fibre.specs.Flights.{AreInReach, AreNear, frames_in_reach};
ghost use Rattle.gp_fibre.specs.Forgetting.{first_to_come};
ghost use Rattle.gp_fibre.specs.Schedule.{flights_after, is_due};

use super::flight::Flight;
use std::alloc::{AllocError, Global};
use std::marker::Model;

/// In how many frames a burst may come: in the one in which it is answered, or one of the four after that.
const FRAMES_IN_REACH: usize = 5;

/// The bursts that were answered in runs and are still to come, by their numbers. For each frame in reach a flag
/// tells whether one may come in it, so that a frame in which none comes costs one look.
#[derive(Drop)]
pub struct Flights {
    pub(super) list: Vec<Flight>,
    /// By the frame's remainder by five.
    coming: [bool; FRAMES_IN_REACH],
}

impl Model for Flights {
    ghost use Rattle.std.specs.Prelude.{◌-◌, vec_capacity, vec_len};
    ghost use Rattle.gp_fibre.specs.Flights.{AreFlagged, FlightsState};

    ghost Value = { FlightsState };

    ghost view = { λ f. record { flights = f.list.items; room = vec_capacity f.list - vec_len f.list } };

    ghost invariant = { λ f. AreFlagged f.list.items f.coming };
}

impl Flights {
    /// Makes a list of none.
    pub fn new(alloc: Global) -> Flights
        ensures { result.flights ≡ [] }
    {
        Flights {
            list: Vec::new(alloc),
            coming: [false; FRAMES_IN_REACH],
        }
    }

    /// Makes room for so many more. It fails only where there is no memory.
    pub fn reserve(&mut self, count: usize) -> Result<(), AllocError>
        ensures flights { self.new.flights ≡ self.old.flights }
        ensures room { OnOk result (count ≤ self.new.room) }
    {
        self.list.reserve(count)
    }

    /// Tells how many there are.
    pub fn len(&self) -> usize
        ensures value { result ≡ length self.now.flights }
        ensures few { result < 2 ^ 63 }
    {
        self.list.len()
    }

    /// Gives the least of their numbers, or `next` where none is less.
    pub fn first_to_come(&self, next: u64) -> u64
        ensures { result ≡ first_to_come next self.now.flights }
    {
        let mut first = next;
        'flights: for flight in self.list.as_slice() {
            first = first.min(flight.number);
        }
        first
    }

    /// Adds a further one, with the next number.
    pub fn add(&mut self, flight: Flight)
        requires room { 0 < self.old.room }
        requires near { AreNear flight.due self.old.flights }
        ensures flights { self.new.flights ≡ self.old.flights ++ flight ∷ [] }
        ensures room { self.new.room + 1 ≡ self.old.room }
    {
        self.coming[flag_of(flight.due)] = true;
        self.list.push_reserved(flight);
    }

    /// Tells whether one may come in this frame. Where it says no, none does.
    pub fn comes_in(&self, frame: u64) -> bool
        ensures { result ≡ false → All (λ f. is_due frame f ≡ false) self.now.flights }
    {
        self.coming[flag_of(frame)]
    }

    /// Takes those of this frame away.
    pub fn remove_due(&mut self, frame: u64)
        requires { AreInReach frame self.old.flights }
        ensures { self.new.flights ≡ flights_after frame self.old.flights }
    {
        if self.comes_in(frame) {
            self.list.retain(|flight| !flight.is_due(frame));
            self.coming[flag_of(frame)] = false;
        }
    }
}

/// Gives the place of a frame's flag.
fn flag_of(frame: u64) -> usize
    ensures { result ≡ frame % frames_in_reach }
{
    (frame % FRAMES_IN_REACH as u64) as usize
}
