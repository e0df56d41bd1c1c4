//! What was sent of one kind (copies, grants or bursts) and is not forgotten, by its number. Numbers go on and are
//! never given anew.
ghost use Rattle.std.specs.Prelude.{◌≡◌, ◌+◌, ◌-◌, ◌<◌, ◌≤◌, ◌++◌, [], OnOk, drop, length, min, vec_capacity, vec_len};
ghost use Rattle.std.specs.Option.{option_to_list};
ghost use Rattle.gp_fibre.specs.Sent.{left_at};

use std::alloc::{AllocError, Global};

/// Numbers from 2^63 on are not forgotten (this profile's own rule), so that all of them fit.
pub const MAX_FORGOTTEN: u64 = 9_223_372_036_854_775_808;

/// What was sent of one kind, by its numbers from 0, but for the first ones, where they were forgotten.
#[derive(Drop)]
pub struct Sent<T> {
    /// How many were forgotten, at most `MAX_FORGOTTEN`.
    pub(super) forgotten: u64,
    /// Those that come after them.
    pub(super) items: Vec<T>,
}

impl<T: Copy> Sent<T> {
    /// Begins with none.
    pub fn new(alloc: Global) -> Sent<T>
        ensures forgotten { result.forgotten ≡ 0 }
        ensures items { result.items.items ≡ [] }
    {
        Sent {
            forgotten: 0,
            items: Vec::new(alloc),
        }
    }

    /// Makes room for so many more. It fails only where there is no memory.
    pub fn reserve(&mut self, count: usize) -> Result<(), AllocError>
        ensures forgotten { self.new.forgotten ≡ self.old.forgotten }
        ensures items { self.new.items.items ≡ self.old.items.items }
        ensures room { OnOk result (count ≤ vec_capacity self.new.items - vec_len self.new.items) }
    {
        self.items.reserve(count)
    }

    /// Tells how many were ever sent: the number of the next one.
    pub fn count(&self) -> u64
        requires { self.now.forgotten ≤ MAX_FORGOTTEN }
        ensures { result ≡ self.now.forgotten + length self.now.items.items }
    {
        self.forgotten + self.items.len() as u64
    }

    /// Gives the one with this number, if it was sent and not forgotten.
    pub fn get(&self, number: u64) -> Option<T>
        ensures { result ≡ left_at self.now.forgotten self.now.items.items number }
    {
        if number < self.forgotten {
            return None;
        }
        self.items.get((number - self.forgotten) as usize).copied()
    }

    /// Adds a further one, if there is one, for which there is room.
    pub fn add(&mut self, item: Option<T>)
        requires { vec_len self.old.items < vec_capacity self.old.items }
        ensures forgotten { self.new.forgotten ≡ self.old.forgotten }
        ensures items { self.new.items.items ≡ self.old.items.items ++ option_to_list item }
        ensures capacity { vec_capacity self.new.items ≡ vec_capacity self.old.items }
        ensures len { vec_len self.new.items ≤ vec_len self.old.items + 1 }
    {
        match item {
            Some(item) => self.items.push_reserved(item),
            None => {}
        }
    }

    /// Forgets those before a number, but none from `MAX_FORGOTTEN` on. The room that they took stays for others.
    pub fn forget_before(&mut self, number: u64)
        requires few { self.old.forgotten ≤ MAX_FORGOTTEN }
        requires from { self.old.forgotten ≤ number }
        requires sent { number ≤ self.old.forgotten + length self.old.items.items }
        ensures forgotten { self.new.forgotten ≡ min number MAX_FORGOTTEN }
        ensures items { self.new.items.items ≡ drop (self.new.forgotten - self.old.forgotten) self.old.items.items }
    {
        let forgotten = number.min(MAX_FORGOTTEN);
        drop_first(&mut self.items, (forgotten - self.forgotten) as usize);
        self.forgotten = forgotten;
    }
}

/// Takes so many items away from the front.
fn drop_first<T: Copy>(items: &mut Vec<T>, count: usize)
    requires { count ≤ vec_len items.old }
    ensures { items.new.items ≡ drop count items.old.items }
{
    let left = items.len() - count;
    items.copy_within(count.., 0);
    items.truncate(left);
}
