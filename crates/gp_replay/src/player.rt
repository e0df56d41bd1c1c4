//! The ports that a script without simulated units is played on.
ghost use Rattle.std.specs.Prelude.{◌≡◌, ◌+◌, ◌<◌, ◌≤◌, [], ◌∷◌, All, IfOk, OnErr, length, slice_get};
ghost use Rattle.std.specs.Option.{ForSome, option_copied};
ghost use Rattle.gp_ploam.specs.Down.{IsProperDown};
ghost use Rattle.gp_chassis.specs.Limits.{IsWithin};
ghost use Rattle.gp_chassis.specs.World.{IsBalanced};
ghost use Rattle.gp_chassis.specs.Core.{GrantsTurn};
ghost use Rattle.gp_fibre.specs.Step.{purse_for};
ghost use Rattle.gp_replay.specs.Chassis.{HasRoom, IsSoundPort, copies_owed, opened_play};
ghost use Rattle.gp_replay.specs.Play.{TakesTurns};
ghost use Rattle.gp_replay.specs.Telling.{TellsTurn};

use super::line_buffer::LineBuffer;
use super::seat::{Seat, close_seats, core_at, open_seats, owed_at};
use super::told::EntryWritten;
use super::turn::Turn;
use gp_chassis::ChassisConfig;
use gp_licence::{LicenceBook, Licences, MAX_LICENCES};
use gp_machine::{Entry, Event};
use gp_ploam::Mask;
use gp_port::PortCore;
use std::alloc::{AllocError, Global};
use std::marker::Model;
use std::sync::ledger::{Blank, Ledger};

/// The ports that a script is played on, with the book of their licences. One actor takes the turns, and has no licence
/// in hand between two of them. Contracts see its world, and the number of each port's next entry.
///
/// It has no `Drop`: its licences are gathered by `close`.
pub struct Player<L: Ledger> {
    seats: Vec<Seat<L>>,
    book: LicenceBook<L>,
}

impl<L: Ledger> Model for Player<L> {
    ghost use Rattle.std.specs.Prelude.{All};
    ghost use Rattle.gp_machine.specs.Codes.{port_codes};
    ghost use Rattle.gp_replay.specs.Chassis.{IsSoundPort, PlayState};
    ghost use Rattle.gp_replay.specs.Seats.{SeatState, play_on};

    ghost Value = { PlayState };

    ghost coded = { Prim.hlevel port_codes };

    ghost view = { λ p. play_on p.seats.items p.book.free };

    ghost invariant = { λ p. All (λ (seat : SeatState). IsSoundPort seat.port) p.seats.items };
}

impl<L: Ledger> Player<L> {
    /// Opens the chassis, before its first event. It keeps no entries, so how many a journal may keep means nothing
    /// here.
    pub fn begin(
        alloc: Global,
        blank: Blank,
        config: &ChassisConfig,
    ) -> Result<Player<L>, AllocError>
        requires name { blank.name ≡ L.name }
        requires parts { (blank.parts ≡ L.parts) × (L.parts ≡ MAX_LICENCES) }
        requires within { IsWithin config.now }
        ensures { IfOk result (λ player. player ≡ opened_play config.now.ports.items config.now.licences) }
    {
        let book = LicenceBook::new(blank, config.licences);
        let (seats, book) = open_seats(alloc, config.ports.as_slice(), book)?;
        Ok(Player { seats, book })
    }

    /// Takes one event to its port, builds the line of the entry, and gives of it only what is asked for behind that:
    /// the answer is not copied. A burst takes one licence where one is free, and gives back what it does not use. The
    /// wished number is handed out where it is free and one is handed out. The mask is that of the port's codes. It
    /// takes no memory, and never fails.
    pub fn tell_turn(
        &mut self,
        turn: Turn,
        wished: Option<u16>,
        mask: Mask,
        buffer: &mut LineBuffer,
    ) -> Result<EntryWritten, AllocError>
        requires port { turn.port < length self.old.next }
        requires room { HasRoom 1 self.old }
        ensures told { IfOk result (λ told. TellsTurn mask self.old turn wished told buffer.new self.new) }
        ensures refused { OnErr result ((self.new ≡ self.old) × (buffer.new ≡ buffer.old)) }
        ensures done { OnErr result ⊥ }
        ensures ports { length self.new.next ≡ length self.old.next }
    {
        let mut entry = Entry::blank();
        let number = self.serve(turn, wished, &mut entry);
        buffer.build_entry(mask, turn.port, number, &entry);
        Ok(EntryWritten {
            number,
            grant: entry.answer.grant,
        })
    }

    /// Tells how many ports there are.
    pub fn ports(&self) -> usize
        ensures { result ≡ length self.now.next }
    {
        self.seats.len()
    }

    /// Gives the port with this number, if there is one.
    pub fn port(&self, port: u8) -> Option<&PortCore<L>>
        ensures { option_copied result ≡ slice_get self.now.world.ports port }
    {
        core_at(self.seats.as_slice(), port)
    }

    /// Tells how many licences are free.
    pub fn free(&self) -> u32
        ensures { result ≡ self.now.world.free }
    {
        self.book.free()
    }

    /// Tells how many copies of messages a port still has to send, one with each frame; none where there is no such
    /// port.
    pub fn owed(&self, port: u8) -> usize
        ensures { result ≡ copies_owed self.now port }
    {
        owed_at(self.seats.as_slice(), port)
    }

    /// States what holds of every port: its state is sound, and its configuration within its limits.
    pub fn stands(&self)
        ensures { All IsSoundPort self.now.world.ports }
    {
        // The invariant is known once a field is looked at.
        let _ = &self.book;
    }

    /// Ends the chassis, and answers how many licences it was opened with: those that are free, in hands or with
    /// active units.
    pub fn close(self) -> u32
        ensures { IsBalanced result self.world }
    {
        let Player { seats, book } = self;
        close_seats(seats, book)
    }

    /// Has the port serve the event of a turn, as actor 0, and writes the entry where the caller wants it. Its number
    /// is told.
    #[inline(always)]
    pub(crate) fn serve(&mut self, turn: Turn, wished: Option<u16>, entry: &mut Entry) -> u64
        requires port { turn.port < length self.old.next }
        requires room { HasRoom 1 self.old }
        ensures taken { TakesTurns self.old (turn ∷ []) (record
            { port = turn.port; number = result; entry = entry.new } ∷ []) self.new }
        ensures proper { ForSome entry.new.answer.sent IsProperDown }
        ensures ports { length self.new.next ≡ length self.old.next }
        ensures wished { GrantsTurn self.old.world self.new.world turn.port turn.event wished entry.new }
    {
        let purse = take_purse(&mut self.book, &turn.event);
        let seat = &mut self.seats[usize::from(turn.port)];
        let number = seat.next();
        let rest = seat.take(purse, turn.event, wished, entry);
        self.book.give(rest);
        number
    }
}

/// Takes the licences for an event: one for a burst, where one is free.
fn take_purse<L: Ledger>(book: &mut LicenceBook<L>, event: &Event) -> Licences<L>
    ensures purse { result ≡ purse_for event.now book.old.free }
    ensures free { book.new.free + result ≡ book.old.free }
{
    match event {
        Event::Burst { .. } => book.take(),
        Event::Frame | Event::Command(_) => Licences::none(),
    }
}
