//! The owed copies as plain data, as an image of a port keeps them, and the queue made of them again; whether queues
//! and images are of the same copies.
ghost use Rattle.std.specs.Prelude.{◌≡◌, ◌≤◌, ◌↔◌, IfOk, IsTrue, length, slice_get};
ghost use Rattle.gp_volley.specs.Copies.{max_copies};
ghost use Rattle.gp_volley.specs.Images.{volley_in};

use super::queue::{MAX_MESSAGES, QueueFault, VolleyQueue};
use super::volley::{COPIES, Volley};
use gp_ploam::Down;
use std::alloc::{AllocError, Global};
use std::collections::VecDeque;
use std::marker::Model;

/// A message with the copies of it that are still to be sent, 1 to 3, as plain data.
#[derive(Clone, Copy)]
struct VolleyImage {
    message: Down,
    left: u8,
}

/// The copies that are owed, as plain data: an image of a port keeps them, and a queue is made of them again.
#[derive(Drop)]
pub struct OwedImage {
    volleys: Vec<VolleyImage>,
}

impl Model for OwedImage {
    ghost use Rattle.std.specs.Prelude.{List, ◌≤◌, length, map};
    ghost use Rattle.gp_ploam.specs.declared.message.Down.{Down};
    ghost use Rattle.gp_volley.specs.Copies.{max_messages};
    ghost use Rattle.gp_volley.specs.Queue.{IsInOrder, copies_of};
    ghost use Rattle.gp_volley.specs.Images.{volley_in};

    ghost Value = { List Down };

    ghost view = { λ o. copies_of (map volley_in o.volleys.items) };

    ghost invariant = { λ o. IsInOrder (map volley_in o.volleys.items) × (length o.volleys.items ≤ max_messages) };
}

/// Makes the image of a volley.
fn image_of(volley: &Volley) -> VolleyImage
    ensures { volley_in result ≡ volley.now }
{
    VolleyImage {
        message: volley.message(),
        left: volley.left(),
    }
}

/// Tells whether both are of the same message, with the same number of copies left.
fn is_same(one: VolleyImage, other: VolleyImage) -> bool
    ensures { IsTrue result ↔ (volley_in one ≡ volley_in other) }
{
    one.message == other.message && one.left == other.left
}

impl OwedImage {
    /// Counts the copies, 0 to 192.
    pub fn len_copies(&self) -> usize
        ensures len { result ≡ length self.now }
        ensures room { result ≤ max_copies }
    {
        if self.volleys.len() == 0 {
            return 0;
        }
        usize::from(self.volleys[0].left) + usize::from(COPIES) * (self.volleys.len() - 1)
    }

    /// Gives the copy with `i` others before it, if there are so many.
    pub fn copy_at(&self, i: usize) -> Option<Down>
        ensures { result ≡ slice_get self.now i }
    {
        if self.volleys.len() == 0 {
            return None;
        }
        let first = self.volleys[0];
        let left = usize::from(first.left);
        if i < left {
            return Some(first.message);
        }
        let at = 1 + (i - left) / usize::from(COPIES);
        if at >= self.volleys.len() {
            return None;
        }
        Some(self.volleys[at].message)
    }

    /// Makes a second image of the same copies.
    pub fn try_clone(&self, alloc: Global) -> Result<OwedImage, AllocError>
        ensures { IfOk result (λ image. image ≡ self.now) }
    {
        let volleys = self.volleys.as_slice().to_vec(alloc)?;
        Ok(OwedImage { volleys })
    }

    /// Makes a queue that owes these copies. No later call of the queue takes memory.
    pub fn reopen(&self, alloc: Global) -> Result<VolleyQueue, QueueFault>
        ensures { IfOk result (λ queue. queue ≡ self.now) }
    {
        let mut volleys = VecDeque::with_capacity(alloc, MAX_MESSAGES)?;
        for i in 0..self.volleys.len() {
            let VolleyImage { message, left } = self.volleys[i];
            volleys.push_back_reserved(Volley::resume(message, left));
        }
        Ok(VolleyQueue { volleys })
    }

    /// Tells whether both images are of the same copies.
    pub fn is_same_as(&self, other: &OwedImage) -> bool
        ensures { IsTrue result ↔ (self.now ≡ other.now) }
    {
        if self.volleys.len() != other.volleys.len() {
            return false;
        }
        for i in 0..self.volleys.len() {
            if !is_same(self.volleys[i], other.volleys[i]) {
                return false;
            }
        }
        true
    }
}

impl VolleyQueue {
    /// Makes an image of the copies that are owed.
    pub fn image(&self, alloc: Global) -> Result<OwedImage, AllocError>
        ensures { IfOk result (λ image. image ≡ self.now) }
    {
        let mut volleys = Vec::with_capacity(alloc, self.volleys.len())?;
        for i in 0..self.volleys.len() {
            if let Some(volley) = self.volleys.get(i) {
                volleys.push(image_of(volley))?;
            }
        }
        Ok(OwedImage { volleys })
    }

    /// Tells whether the image is of the copies that are owed.
    pub fn stands_for(&self, image: &OwedImage) -> bool
        ensures { IsTrue result ↔ (self.now ≡ image.now) }
    {
        if self.volleys.len() != image.volleys.len() {
            return false;
        }
        for i in 0..image.volleys.len() {
            let Some(volley) = self.volleys.get(i) else {
                return false;
            };
            if !is_same(image_of(volley), image.volleys[i]) {
                return false;
            }
        }
        true
    }

    /// Tells whether both queues owe the same copies.
    pub fn is_same_as(&self, other: &VolleyQueue) -> bool
        ensures { IsTrue result ↔ (self.now ≡ other.now) }
    {
        if self.volleys.len() != other.volleys.len() {
            return false;
        }
        for i in 0..self.volleys.len() {
            let (Some(volley), Some(its)) = (self.volleys.get(i), other.volleys.get(i)) else {
                return false;
            };
            if !is_same(image_of(volley), image_of(its)) {
                return false;
            }
        }
        true
    }
}
