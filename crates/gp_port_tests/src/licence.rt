//! The generic code, once at a ledger of its own.
ghost use Rattle.std.specs.Prelude.{◌≡◌};

use gp_licence::{LicenceBook, Licences, MAX_LICENCES};
use std::marker::Brand;
use std::sync::ledger::{Blank, Ledger};

/// Takes three licences of two, one after the other, and gives one back: how many were held after the first and the
/// second, how many came third, how many are free in the end, and how many the book had when it was closed.
fn take_and_give_two<L: Ledger>(blank: Blank) -> [u32; 5]
    requires name { blank.name ≡ L.name }
    requires parts { (blank.parts ≡ L.parts) × (L.parts ≡ MAX_LICENCES) }
{
    let mut book = LicenceBook::<L>::new(blank, 2);
    let mut held = book.take();
    let first = held.count();
    held.absorb(book.take());
    let second = held.count();
    let none_left = book.take();
    let third = none_left.count();
    let (one, rest) = held.join(none_left).split_one();
    book.give(one);
    let free = book.free();
    let closed = book.close(rest.join(Licences::none()));
    [first, second, third, free, closed]
}

#[test]
fn last_licence_once(rt: HostRuntime) {
    let blank = Blank::new(u64::from(MAX_LICENCES));
    assert!(rt; take_and_give_two::<Brand>(blank) == [1, 2, 0, 1, 2]);
}
