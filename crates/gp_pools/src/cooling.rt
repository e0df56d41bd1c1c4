//! The quarantine of freed ONU-IDs, all for the same number of frames. A frame in which none leaves looks at none.
ghost use Rattle.std.specs.Prelude.{◌≡◌, ◌≢◌, ℕ, ◌<◌, ◌≤◌, IsTrue, is_some, slice_index};
ghost use Rattle.std.specs.FinMap as map;
ghost use Rattle.std.specs.FinSet as set;
ghost use Rattle.gp_ploam.specs.OnuIds.{last_onu};
ghost use Rattle.gp_pools.specs.Cooling.{fresh_quarantine, left_at, quarantine_after_frame, quarantine_with};
ghost use Rattle.gp_pools.specs.Limits.{max_quarantine};

use gp_numbers::NumberSet;
use gp_ploam::ONU_IDS;
use std::marker::Model;

/// The most frames for which a freed ONU-ID is not given to another unit: one second (this profile's own rule).
pub const MAX_QUARANTINE: u16 = 8000;

/// How many values an octet has.
const OCTETS: usize = 256;

/// ONU-IDs in quarantine, each for the same number of frames. Contracts see which, and how many frames each has left.
#[derive(Drop)]
pub struct Cooling {
    frames: u16,
    members: NumberSet<0, 4>,
    /// The frame in which a member leaves, without the carry out of 16 bits.
    leaves: [u16; OCTETS],
    /// The frames that went by, without the carry out of 16 bits.
    clock: u16,
    /// No member leaves before the frame that is so many frames ahead, the next one at 1; 0 where there is no member.
    wait: u16,
}

impl Model for Cooling {
    ghost use Rattle.gp_ploam.specs.OnuIds.{onu_ids};
    ghost use Rattle.gp_pools.specs.Cooling.{Quarantine, quarantine_code, cooling_in, IsCool};

    ghost Value = { Quarantine };

    ghost coded = { quarantine_code };

    ghost view = { λ c. record { frames = c.frames; cooling = cooling_in onu_ids c.members c.leaves c.clock } };

    ghost invariant = { λ c. IsCool c.frames c.members c.leaves c.clock c.wait };
}

impl Cooling {
    /// Makes a quarantine with nothing in it. A number will cool for this many frames.
    pub fn new(frames: u16) -> Cooling
        requires { frames ≤ max_quarantine }
        ensures { result ≡ fresh_quarantine frames }
    {
        Cooling {
            frames,
            members: NumberSet::new(),
            leaves: blank(),
            clock: 0,
            wait: 0,
        }
    }

    /// Makes a second quarantine with the same numbers in it.
    pub fn copy(&self) -> Cooling
        ensures { result ≡ self.now }
    {
        Cooling {
            frames: self.frames,
            members: self.members.union(&self.members),
            leaves: self.leaves,
            clock: self.clock,
            wait: self.wait,
        }
    }

    /// Tells how many frames a number has left, if it is in quarantine.
    pub fn frames_left(&self, number: u8) -> Option<u16>
        ensures { result ≡ map.get self.now.cooling number }
    {
        if !self.members.contains(u16::from(number)) {
            return None;
        }
        Some(self.leaves[usize::from(number)].wrapping_sub(self.clock))
    }

    /// Tells the numbers in quarantine.
    pub fn members(&self) -> &NumberSet<0, 4>
        ensures { (number : ℕ) → set.contains result.now number ≡ is_some (map.get self.now.cooling number) }
    {
        &self.members
    }

    /// Makes a number cool, from now on.
    pub fn begin(&mut self, number: u16)
        requires { number ≤ last_onu }
        ensures { self.new ≡ quarantine_with self.old number }
    {
        if self.frames == 0 {
            return;
        }
        self.members.insert(number);
        self.leaves[usize::from(number)] = self.clock.wrapping_add(self.frames);
        if self.wait == 0 {
            self.wait = self.frames;
        }
    }

    /// Lets a frame go by. Where no number leaves it looks at none.
    pub fn tick(&mut self)
        ensures { self.new ≡ quarantine_after_frame self.old }
    {
        self.clock = self.clock.wrapping_add(1);
        if self.wait > 1 {
            self.wait -= 1;
        } else if self.wait == 1 {
            self.wait = let_out(&mut self.members, &self.leaves, self.clock);
        }
    }
}

/// Makes a table without frames of leaving.
fn blank() -> [u16; OCTETS]
    ensures { (place : ℕ) → slice_index result place < 65536 }
{
    [0; OCTETS]
}

/// Tells the sooner of two waits, where 0 is none.
fn sooner(wait: u16, left: u16) -> u16
    requires { 1 ≤ left }
    ensures some { 1 ≤ result }
    ensures left { result ≤ left }
    ensures wait { wait ≢ 0 → result ≤ wait }
    ensures either { (most : ℕ) → wait ≤ most → left ≤ most → result ≤ most }
{
    if wait == 0 || left < wait { left } else { wait }
}

/// Takes out the members that have no frame left, and answers how many the next one has, or 0 where none stays.
fn let_out(members: &mut NumberSet<0, 4>, leaves: &[u16; OCTETS], now: u16) -> u16
    ensures stays { (number : ℕ) → IsTrue (set.contains members.old number) → left_at leaves.now now number ≢ 0
        → IsTrue (set.contains members.new number) }
    ensures were { (number : ℕ) → IsTrue (set.contains members.new number) → IsTrue (set.contains members.old number) }
    ensures left { (number : ℕ) → number ≤ last_onu → IsTrue (set.contains members.new number)
        → left_at leaves.now now number ≢ 0 }
    ensures later { (number : ℕ) → number ≤ last_onu → IsTrue (set.contains members.new number)
        → result ≤ left_at leaves.now now number }
    ensures awaited { (number : ℕ) → number ≤ last_onu → IsTrue (set.contains members.new number) → 1 ≤ result }
    ensures soon { (most : ℕ)
        → ((number : ℕ) → number ≤ last_onu → IsTrue (set.contains members.old number)
        → left_at leaves.now now number ≤ most) → result ≤ most }
{
    let mut wait = 0;
    'numbers: for number in 0..u16::from(ONU_IDS) {
        if members.contains(number) {
            let left = leaves[usize::from(number)].wrapping_sub(now);
            if left == 0 {
                members.remove(number);
            } else {
                wait = sooner(wait, left);
            }
        }
    }
    wait
}
