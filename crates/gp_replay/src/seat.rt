//! A port that a script is played on, with the number of its next entry: it takes events without a journal.
ghost use Rattle.std.specs.Prelude.{◌≡◌, ◌+◌, ◌<◌, ◌^◌, IfOk, IsTrue, All, length, map, slice_get, sum_by};
ghost use Rattle.std.specs.Option.{option_copied};
ghost use Rattle.gp_machine.specs.Config.{is_within_limits};
ghost use Rattle.gp_machine.specs.State.{rows_of};
ghost use Rattle.gp_replay.specs.Chassis.{owed_of};
ghost use Rattle.gp_replay.specs.Seats.{SeatState, SeatTakes, port_of, seat_opened};

use gp_licence::{LicenceBook, Licences};
use gp_machine::{Entry, Event, PortConfig};
use gp_port::{OpenFault, PortCore};
use std::alloc::{AllocError, Global};
use std::marker::Model;
use std::sync::ledger::Ledger;

/// A port that a script is played on, and the number of its next entry.
///
/// It has no `Drop`: it ends by `close`.
pub(super) struct Seat<L: Ledger> {
    core: PortCore<L>,
    next: u64,
}

impl<L: Ledger> Model for Seat<L> {
    ghost use Rattle.gp_machine.specs.Codes.{port_codes};
    ghost use Rattle.gp_replay.specs.Seats.{SeatState};

    ghost Value = { SeatState };

    ghost coded = { Prim.hlevel port_codes };

    ghost view = { λ s. record { port = s.core; next = s.next } };
}

impl<L: Ledger> Seat<L> {
    /// Tells the number of the port's next entry.
    pub(super) fn next(&self) -> u64
        ensures { result ≡ self.now.next }
    {
        self.next
    }

    /// Lets the port take an event with these licences at hand, and hands out the wished number where it is free and
    /// one is handed out. The entry is written where the caller wants it, whatever stood there, and what is left of the
    /// licences is given back.
    #[inline(always)]
    pub(super) fn take(
        &mut self,
        purse: Licences<L>,
        event: Event,
        wished: Option<u16>,
        entry: &mut Entry,
    ) -> Licences<L>
        requires { self.old.next + 1 < 2 ^ 64 }
        ensures { SeatTakes self.old self.new purse event wished entry.new result }
    {
        let rest = self.core.step_entry(purse, event, wished, entry);
        self.next += 1;
        // What the port was opened with never changes: that it is within its limits is known once it is looked at.
        let _ = self.core.config();
        rest
    }

    /// Tells how many copies of messages the port still has to send.
    fn owed(&self) -> usize
        ensures { result ≡ length self.now.port.owed }
    {
        self.core.owed()
    }

    /// Ends the port, with the licence of each unit.
    fn close(self) -> Licences<L>
        ensures { result ≡ rows_of self.port }
    {
        let Seat { core, next: _ } = self;
        core.close()
    }
}

/// Tells how many copies of messages the port with this number still has to send; none where there is no such port.
pub(super) fn owed_at<L: Ledger>(seats: &[Seat<L>], port: u8) -> usize
    ensures { result ≡ owed_of (slice_get (map port_of seats.now) port) }
{
    match seats.get(usize::from(port)) {
        Some(seat) => seat.owed(),
        None => 0,
    }
}

/// Gives the port with this number, if there is one.
pub(super) fn core_at<L: Ledger>(seats: &[Seat<L>], port: u8) -> Option<&PortCore<L>>
    ensures { option_copied result ≡ slice_get (map port_of seats.now) port }
{
    match seats.get(usize::from(port)) {
        Some(seat) => Some(&seat.core),
        None => None,
    }
}

/// Opens a port for each configuration. Where there is no memory, the book ends, with the ports that were opened so
/// far.
pub(super) fn open_seats<L: Ledger>(
    alloc: Global,
    configs: &[PortConfig],
    book: LicenceBook<L>,
) -> Result<(Vec<Seat<L>>, LicenceBook<L>), AllocError>
    requires { All (λ config. IsTrue (is_within_limits config)) configs.now }
    ensures { IfOk result (λ opened. (opened.0.items ≡ map seat_opened configs.now) × (opened.1 ≡ book)) }
{
    let mut seats = match Vec::with_capacity(alloc, configs.len()) {
        Ok(seats) => seats,
        Err(fault) => {
            book.close(Licences::none());
            return Err(fault);
        }
    };
    for config in configs {
        match PortCore::begin(alloc, config) {
            Ok(core) => seats.push_reserved(Seat { core, next: 0 }),
            Err(OpenFault::OutOfMemory) => {
                close_seats(seats, book);
                return Err(AllocError);
            }
            Err(OpenFault::Limit) => unreachable!(),
        }
    }
    Ok((seats, book))
}

/// Ends the ports and the book, and tells how many licences came back.
pub(super) fn close_seats<L: Ledger>(seats: Vec<Seat<L>>, book: LicenceBook<L>) -> u32
    ensures { result ≡ book.free + sum_by (λ (seat : SeatState). rows_of seat.port) seats.items }
{
    let mut seats = seats;
    let mut book = book;
    while let Some(seat) = seats.pop() {
        book.give(seat.close());
    }
    seats.destroy_empty();
    book.close(Licences::none())
}
