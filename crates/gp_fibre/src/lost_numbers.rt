//! Numbers that are lost, as a list that was given: looked up there, and in order once that saves time.
ghost use Rattle.std.specs.Prelude.{◌≡◌, ◌==◌, ◌<◌, ◌≤◌, ℕ, IsTrue, length, slice_index};
ghost use Rattle.std.specs.List.{position};
ghost use Rattle.std.specs.List.Sorted.{IsNonDecreasing};
ghost use Rattle.gp_fibre.specs.Schedule as spec;
ghost use Rattle.gp_fibre.specs.LostNumbers.{IsPlaceOf, IsInOrder};
ghost use Rattle.gp_fibre.specs.LostNumbers as spec_place;

use std::collections::BinaryHeap;
use std::marker::Model;
use std::mem;
use std::snapshot::Snapshot;

/// Numbers that are lost, of copies or of bursts. A look-up walks over them, until all look-ups took as long as it
/// takes to put them in order. Then they are put in order once, where they stand, and a number is looked up by
/// halvings; in a step or two, where neither it nor the one before is lost, and none that is lost lies between them.
///
/// Contracts see them as a list, as they were given.
#[derive(Drop)]
pub struct LostNumbers {
    /// As they were given, in contracts alone.
    given: Snapshot<Vec<u64>>,
    numbers: Vec<u64>,
    /// Whether they were put in ascending order.
    is_ordered: bool,
    /// Where the number that was looked up last stands: any of its places, if it has more than one. If it has none,
    /// how many of them are less.
    place: usize,
    /// How many numbers look-ups went over before they were put so.
    steps: u64,
}

impl Model for LostNumbers {
    ghost use Rattle.std.specs.Prelude.{ℕ, List};
    ghost use Rattle.gp_fibre.specs.LostNumbers.{AreHeld};

    ghost Value = { List ℕ };

    ghost view = { λ l. l.given.value.items };

    ghost invariant = { λ l. AreHeld l.given.value.items l.numbers.items l.is_ordered };
}

impl From<Vec<u64>> for LostNumbers {
    ghost from_gives = { λ given lost. lost ≡ given.items };

    fn from(given: Vec<u64>) -> LostNumbers {
        LostNumbers {
            given: Snapshot::of(&given),
            numbers: given,
            is_ordered: false,
            place: 0,
            steps: 0,
        }
    }
}

impl LostNumbers {
    /// Tells whether a number is one of those that are lost.
    pub fn is_lost(&mut self, number: u64) -> bool
        ensures value { result ≡ spec.is_lost self.old number }
        ensures same { self.new ≡ self.old }
    {
        if self.is_ordered {
            let place = place_near(&self.numbers, number, self.place);
            self.place = place;
            return stands_at(&self.numbers, place, number);
        }
        let first = first_place_of(number, &self.numbers);
        self.note_walk(first);
        first.is_some()
    }

    /// Counts the numbers that a look-up went over, up to the first that it found, and puts all in order where these
    /// were enough.
    fn note_walk(&mut self, first: Option<usize>)
        ensures { self.new ≡ self.old }
    {
        let count = self.numbers.len();
        self.steps = self.steps.saturating_add(first.unwrap_or(count) as u64);
        if self.steps < walks_over(count).saturating_mul(count as u64) {
            return;
        }
        let none = Vec::new(*self.numbers.allocator());
        self.numbers = in_order(mem::replace(&mut self.numbers, none));
        self.is_ordered = true;
    }
}

/// How often look-ups walk over so many numbers before these are put in order, by a heap, so that they took as long as
/// that takes: 64 times, or half the square of the binary digits of their count, where that is more, since each number
/// takes a step for each digit, which goes the further in memory the more there are. Measured in a proved build, the
/// order took as long as some 40 to 50 walks over 100 to 1,000 numbers that were in no order, some 65 over 10,000 (98
/// are made), and some 110 to 130 over 116,000 (144 are made), for more of which a script has no room.
fn walks_over(count: usize) -> u64 {
    let digits = u64::from(64u32.saturating_sub(count.leading_zeros()));
    (digits.saturating_mul(digits) / 2).max(64)
}

/// Finds the first place of a number among these.
fn first_place_of(number: u64, given: &[u64]) -> Option<usize>
    ensures { result ≡ position (λ n. n == number) given.now }
{
    given.iter().position(|other| *other == number)
}

/// Puts these numbers in ascending order where they stand, by a heap: it takes no memory and no recursion.
fn in_order(given: Vec<u64>) -> Vec<u64>
    ensures { IsInOrder given.items result.items }
{
    BinaryHeap::from(given).into_sorted_vec()
}

/// Tells whether so many of these numbers are less than a number.
fn are_less(ordered: &[u64], number: u64, place: usize) -> bool
    requires ascending { IsNonDecreasing ordered.now }
    requires within { place ≤ length ordered.now }
    ensures { IsTrue result → (k : ℕ) → k < place → slice_index ordered.now k < number }
{
    place == 0 || ordered[place - 1] < number
}

/// Tells whether none of these numbers from a place on is less than a number.
fn none_is_less(ordered: &[u64], number: u64, place: usize) -> bool
    requires ascending { IsNonDecreasing ordered.now }
    requires within { place ≤ length ordered.now }
    ensures { IsTrue result → (k : ℕ) → place ≤ k → k < length ordered.now → number ≤ slice_index ordered.now k }
{
    place == ordered.len() || number <= ordered[place]
}

/// Tells whether so many of these numbers, and no more, are less than a number.
fn is_place(ordered: &[u64], number: u64, place: usize) -> bool
    requires { IsNonDecreasing ordered.now }
    ensures { IsTrue result → IsPlaceOf ordered.now number place }
{
    if place > ordered.len() || !are_less(ordered, number, place) {
        return false;
    }
    none_is_less(ordered, number, place)
}

/// Finds a place of a number among these, or how many are less where it isn't one of them.
fn place_in(ordered: &[u64], number: u64) -> usize
    requires { IsNonDecreasing ordered.now }
    ensures { IsPlaceOf ordered.now number result }
{
    match ordered.binary_search(&number) {
        Ok(place) => place,
        Err(place) => place,
    }
}

/// Does the same, and looks first whether so many are less.
fn place_near(ordered: &[u64], number: u64, place: usize) -> usize
    requires { IsNonDecreasing ordered.now }
    ensures { IsPlaceOf ordered.now number result }
{
    if is_place(ordered, number, place) {
        return place;
    }
    place_in(ordered, number)
}

/// Tells whether a number stands at this place.
fn stands_at(ordered: &[u64], place: usize, number: u64) -> bool
    ensures { result ≡ spec_place.stands_at ordered.now place number }
{
    place < ordered.len() && ordered[place] == number
}
