//! What is in the hands of the actors, and how hands and desks end: each licence goes back to the book.
ghost use Rattle.std.specs.Prelude.{ℕ, ◌≡◌, ◌+◌, ◌<◌, length, replicate, sum_by, slice_index, slice_set, IfOk};
ghost use Rattle.gp_machine.specs.State.{rows_of};
ghost use Rattle.gp_chassis.specs.Desk.{DeskState};
ghost use Rattle.gp_chassis.specs.World.{actors};

use crate::desk::PortDesk;
use gp_licence::{LicenceBook, Licences};
use std::alloc::{AllocError, Global};
use std::mem;
use std::sync::ledger::Ledger;

/// How many actors a chassis has.
pub const ACTORS: u8 = 64;

/// Makes empty hands for all actors.
pub(crate) fn empty_hands<L: Ledger>(alloc: Global) -> Result<Vec<Licences<L>>, AllocError>
    ensures { IfOk result (λ hands. hands.items ≡ replicate actors 0) }
{
    let mut hands = Vec::with_capacity(alloc, usize::from(ACTORS))?;
    for _ in 0..ACTORS {
        hands.push_reserved(Licences::none());
    }
    Ok(hands)
}

/// Takes all out of an actor's hands.
pub(crate) fn pull<L: Ledger>(hands: &mut Vec<Licences<L>>, actor: usize) -> Licences<L>
    requires { actor < length hands.old.items }
    ensures pulled { result ≡ slice_index hands.old.items actor }
    ensures hands { hands.new.items ≡ slice_set hands.old.items actor 0 }
{
    mem::replace(&mut hands[actor], Licences::none())
}

/// Puts licences into an actor's empty hands.
pub(crate) fn put<L: Ledger>(hands: &mut Vec<Licences<L>>, actor: usize, licences: Licences<L>)
    requires actor { actor < length hands.old.items }
    requires empty { slice_index hands.old.items actor ≡ 0 }
    ensures { hands.new.items ≡ slice_set hands.old.items actor licences }
{
    let empty = mem::replace(&mut hands[actor], licences);
    empty.drop_empty();
}

/// Gives the book what is in all hands.
pub(crate) fn give_hands<L: Ledger>(hands: Vec<Licences<L>>, book: LicenceBook<L>) -> LicenceBook<L>
    ensures free { result.free ≡ book.free + sum_by (λ (count : ℕ). count) hands.items }
    ensures total { result.total ≡ book.total }
{
    let mut hands = hands;
    let mut book = book;
    while let Some(hand) = hands.pop() {
        book.give(hand);
    }
    hands.destroy_empty();
    book
}

/// Ends the desks, and gives the book the licences of their units.
pub(crate) fn close_desks<L: Ledger>(
    desks: Vec<PortDesk<L>>,
    book: LicenceBook<L>,
) -> LicenceBook<L>
    ensures free { result.free ≡ book.free + sum_by (λ (desk : DeskState). rows_of desk.state) desks.items }
    ensures total { result.total ≡ book.total }
{
    let mut desks = desks;
    let mut book = book;
    while let Some(desk) = desks.pop() {
        let (_journal, held) = desk.close();
        book.give(held);
    }
    desks.destroy_empty();
    book
}
