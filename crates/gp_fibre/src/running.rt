//! The parts of a frame of `World::run`, in their order: the port's frame, the copy, the grant, the bursts that come,
//! and the frame of each unit.
ghost use Rattle.std.specs.Prelude.{◌≡◌, ◌+◌, ◌-◌, ◌*◌, ◌<◌, ◌≤◌, ◌++◌, ◌∷◌, [], All, Some, drop, length, slice_get, vec_capacity};
ghost use Rattle.std.specs.Option.{ForSome};
ghost use Rattle.gp_ploam.specs.Down.{IsProperDown};
ghost use Rattle.gp_fibre.specs.declared.world.TheConstants.{MAX_FRAMES};
ghost use Rattle.gp_fibre.specs.Flights.{AreInReach, AreKept};
ghost use Rattle.gp_fibre.specs.World.{kept_at};
ghost use Rattle.gp_fibre.specs.Room.{HasAnswerRoom, HasEventRoom, KeepsCounts, TakesEventRoom};
ghost use Rattle.gp_fibre.specs.Parts.{Asks, Comes, PortPuts, UnitsTake, events_of, world_state};
ghost use Rattle.gp_fibre.specs.Step.{UnitAnswers};
ghost use Rattle.gp_fibre.specs.Schedule.{IsProperEntry};
ghost use Rattle.gp_fibre.specs.Schedule as spec;

use super::fibre::Fibre;
use super::flight::Flight;
use super::flights::Flights;
use super::lost_numbers::LostNumbers;
use super::sent_burst::SentBurst;
use gp_machine::{Entry, Event};
use gp_onu::FRAME_BIT_TIMES;
use gp_ploam::Down;
use gp_ranging::Grant;
use std::sync::ledger::Ledger;

/// Lets a copy reach each unit, one after the other. Those without the ONU-ID that it is meant for are the same after
/// it, so they are passed over. Its code is made once, where a unit heeds it.
fn deliver_all<L: Ledger>(fibre: &mut Fibre<L>, copy: u64, message: &Down)
    requires sent { kept_at fibre.old.world.forgotten.copies fibre.old.world.copies copy ≡ Some message.now }
    requires proper { IsProperDown message.now }
    ensures taken { UnitsTake fibre.old.world (spec.deliveries copy (length fibre.old.world.units)) fibre.new.world }
    ensures bursts { fibre.new.world.bursts ≡ fibre.old.world.bursts }
    ensures rest { fibre.new ≡ record fibre.old { world = fibre.new.world } }
{
    let mut code = None;
    let mut from = 0;
    while let Some(place) = fibre.next_meant(message, from) {
        fibre.hear(usize::from(place), message, &mut code);
        from = place + 1;
    }
}

/// Lets a grant reach a unit. Its burst, if it answers with one, comes after its round trip.
fn give<L: Ledger>(
    fibre: &mut Fibre<L>,
    flights: &mut Flights,
    place: u16,
    issued: Grant,
    frame: u64,
)
    requires place { place < length fibre.old.world.units }
    requires room { 0 < fibre.old.bursts_room }
    requires flights { 0 < flights.old.room }
    requires frame { frame < MAX_FRAMES }
    requires reach { AreInReach frame flights.old.flights }
    ensures unit { UnitAnswers fibre.old.world place issued fibre.new.world }
    ensures rest { fibre.new ≡ record fibre.old { world = fibre.new.world; bursts_room = fibre.new.bursts_room } }
    ensures room { fibre.old.bursts_room ≤ fibre.new.bursts_room + 1 }
    ensures comes { Comes frame fibre.old.world flights.old.flights fibre.new.world flights.new.flights }
    ensures reach { AreInReach frame flights.new.flights }
    ensures flights_room { flights.old.room ≤ flights.new.room + 1 }
{
    let number = fibre.bursts();
    let Some(burst) = fibre.give(usize::from(place), issued) else {
        return;
    };
    let due = frame + u64::from(burst.at / FRAME_BIT_TIMES);
    flights.add(Flight { number, due });
}

/// Lets a grant reach each unit, one after the other. Those that it doesn't ask are the same after it, so they are
/// passed over.
fn give_all<L: Ledger>(
    fibre: &mut Fibre<L>,
    flights: &mut Flights,
    grant: u64,
    issued: Grant,
    frame: u64,
)
    requires issued { kept_at fibre.old.world.forgotten.grants fibre.old.world.grants grant ≡ Some issued }
    requires room { HasAnswerRoom fibre.old flights.old }
    requires frame { frame < MAX_FRAMES }
    requires reach { AreInReach frame flights.old.flights }
    ensures taken { UnitsTake fibre.old.world (spec.grants_given grant (length fibre.old.world.units)) fibre.new.world }
    ensures rest { fibre.new ≡ record fibre.old { world = fibre.new.world; bursts_room = fibre.new.bursts_room } }
    ensures comes { Comes frame fibre.old.world flights.old.flights fibre.new.world flights.new.flights }
    ensures reach { AreInReach frame flights.new.flights }
{
    let mut from = 0;
    while let Some(place) = fibre.next_asked(issued, from) {
        give(fibre, flights, place, issued, frame);
        from = place + 1;
    }
}

/// Lets the copy that was sent with this number, if one was, and is not lost, reach each unit.
pub(super) fn pass_on<L: Ledger>(
    fibre: &mut Fibre<L>,
    copy: u64,
    sent: Option<Down>,
    lost: &mut LostNumbers,
)
    requires sent { ForSome sent (λ message.
        kept_at fibre.old.world.forgotten.copies fibre.old.world.copies copy ≡ Some message) }
    requires proper { ForSome sent IsProperDown }
    ensures taken { UnitsTake fibre.old.world
        (spec.inputs_of_copy lost.old copy (length fibre.old.world.units) sent) fibre.new.world }
    ensures bursts { fibre.new.world.bursts ≡ fibre.old.world.bursts }
    ensures rest { fibre.new ≡ record fibre.old { world = fibre.new.world } }
    ensures lost { lost.new ≡ lost.old }
{
    let Some(message) = sent else {
        return;
    };
    if lost.is_lost(copy) {
        return;
    }
    deliver_all(fibre, copy, &message);
}

/// Lets the grant that was issued with this number, if one was, reach each unit.
pub(super) fn give_on<L: Ledger>(
    fibre: &mut Fibre<L>,
    flights: &mut Flights,
    grant: u64,
    issued: Option<Grant>,
    frame: u64,
)
    requires issued { ForSome issued (λ asked.
        kept_at fibre.old.world.forgotten.grants fibre.old.world.grants grant ≡ Some asked) }
    requires room { HasAnswerRoom fibre.old flights.old }
    requires frame { frame < MAX_FRAMES }
    requires reach { AreInReach frame flights.old.flights }
    ensures taken { UnitsTake fibre.old.world
        (spec.inputs_of_grant grant (length fibre.old.world.units) issued) fibre.new.world }
    ensures rest { fibre.new ≡ record fibre.old { world = fibre.new.world; bursts_room = fibre.new.bursts_room } }
    ensures comes { Comes frame fibre.old.world flights.old.flights fibre.new.world flights.new.flights }
    ensures reach { AreInReach frame flights.new.flights }
{
    let Some(issued) = issued else {
        return;
    };
    give_all(fibre, flights, grant, issued, frame);
}

/// Gives the port the bursts that come in this frame, but for those that are lost.
fn arrive_all<L: Ledger>(
    fibre: &mut Fibre<L>,
    flights: &[Flight],
    entries: &mut Vec<Entry>,
    lost: &mut LostNumbers,
    frame: u64,
)
    requires room { HasEventRoom (length flights.now) fibre.old entries.old }
    requires kept { AreKept fibre.old.world flights.now }
    requires proper { All IsProperEntry entries.old.items }
    ensures puts { PortPuts fibre.old.world
        (spec.arrivals lost.old frame flights.now) entries.old.items entries.new.items fibre.new.world }
    ensures counts { KeepsCounts fibre.old fibre.new }
    ensures capacity { vec_capacity entries.new ≡ vec_capacity entries.old }
    ensures proper { All IsProperEntry entries.new.items }
    ensures lost { lost.new ≡ lost.old }
{
    for place in 0..flights.len() {
        arrive(fibre, flights[place], entries, lost, frame);
    }
}

/// Gives the port a burst, if it comes in this frame and is not lost.
fn arrive<L: Ledger>(
    fibre: &mut Fibre<L>,
    flight: Flight,
    entries: &mut Vec<Entry>,
    lost: &mut LostNumbers,
    frame: u64,
)
    requires room { HasEventRoom 1 fibre.old entries.old }
    requires kept { fibre.old.world.forgotten.bursts ≤ flight.number }
    requires number { flight.number < length fibre.old.world.bursts }
    requires proper { All IsProperEntry entries.old.items }
    ensures puts { PortPuts fibre.old.world
        (spec.arrivals lost.old frame (flight ∷ [])) entries.old.items entries.new.items fibre.new.world }
    ensures counts { KeepsCounts fibre.old fibre.new }
    ensures room { TakesEventRoom 1 fibre.old fibre.new entries.old entries.new }
    ensures proper { All IsProperEntry entries.new.items }
    ensures lost { lost.new ≡ lost.old }
{
    if !flight.is_due(frame) || lost.is_lost(flight.number) {
        return;
    }
    let Some(burst) = fibre.burst_at(flight.number) else {
        unreachable!()
    };
    let SentBurst { at, bytes } = burst;
    let place = entries.len();
    entries.push_reserved(Entry::blank());
    fibre.take_into(Event::Burst { at, bytes }, &mut entries[place]);
}

/// Gives the port the bursts that come in this frame, but for those that are lost, and takes them away from those
/// that are to come. Where none comes, it walks over none.
fn land<L: Ledger>(
    fibre: &mut Fibre<L>,
    flights: &mut Flights,
    entries: &mut Vec<Entry>,
    lost: &mut LostNumbers,
    frame: u64,
)
    requires room { HasEventRoom (length flights.old.flights) fibre.old entries.old }
    requires kept { AreKept fibre.old.world flights.old.flights }
    requires reach { AreInReach frame flights.old.flights }
    requires proper { All IsProperEntry entries.old.items }
    ensures puts { PortPuts fibre.old.world
        (spec.arrivals lost.old frame flights.old.flights) entries.old.items entries.new.items fibre.new.world }
    ensures left { flights.new.flights ≡ spec.flights_after frame flights.old.flights }
    ensures counts { KeepsCounts fibre.old fibre.new }
    ensures capacity { vec_capacity entries.new ≡ vec_capacity entries.old }
    ensures proper { All IsProperEntry entries.new.items }
    ensures lost { lost.new ≡ lost.old }
{
    if !flights.comes_in(frame) {
        return;
    }
    arrive_all(fibre, &flights.list, entries, lost, frame);
    flights.remove_due(frame);
}

/// Makes the port's part of a frame, and what follows from what it sends and grants.
fn ask<L: Ledger>(
    fibre: &mut Fibre<L>,
    flights: &mut Flights,
    entries: &mut Vec<Entry>,
    lost: &mut LostNumbers,
    frame: u64,
)
    requires room { HasEventRoom 1 fibre.old entries.old }
    requires answers { HasAnswerRoom fibre.old flights.old }
    requires frame { frame < MAX_FRAMES }
    requires reach { AreInReach frame flights.old.flights }
    requires proper { All IsProperEntry entries.old.items }
    ensures asks { Asks lost.old fibre.old.world entries.old.items entries.new.items fibre.new.world }
    ensures comes { Comes frame fibre.old.world flights.old.flights fibre.new.world flights.new.flights }
    ensures reach { AreInReach frame flights.new.flights }
    ensures counts { KeepsCounts fibre.old fibre.new }
    ensures room { TakesEventRoom 1 fibre.old fibre.new entries.old entries.new }
    ensures proper { All IsProperEntry entries.new.items }
    ensures lost { lost.new ≡ lost.old }
{
    let copy = fibre.copies();
    let grant = fibre.grants();
    let place = entries.len();
    entries.push_reserved(Entry::blank());
    let entry = &mut entries[place];
    fibre.take_into(Event::Frame, entry);
    let sent = entry.answer.sent;
    let issued = entry.answer.grant;
    pass_on(fibre, copy, sent, lost);
    give_on(fibre, flights, grant, issued, frame);
}

/// Plays a frame of a run, for which all room was made.
pub(super) fn play_frame<L: Ledger>(
    fibre: &mut Fibre<L>,
    flights: &mut Flights,
    entries: &mut Vec<Entry>,
    lost_copies: &mut LostNumbers,
    lost_bursts: &mut LostNumbers,
)
    requires frames { fibre.old.frames < MAX_FRAMES }
    requires kept { AreKept fibre.old.world flights.old.flights }
    requires reach { AreInReach fibre.old.frames flights.old.flights }
    requires room { HasEventRoom (events_of fibre.old flights.old) fibre.old entries.old }
    requires answers { HasAnswerRoom fibre.old flights.old }
    requires proper { All IsProperEntry entries.old.items }
    ensures puts { spec.PutsFrame lost_copies.old lost_bursts.old
        (world_state fibre.old flights.old) entries.old.items entries.new.items (world_state fibre.new flights.new) }
    ensures kept { AreKept fibre.new.world flights.new.flights }
    ensures reach { AreInReach fibre.new.frames flights.new.flights }
    ensures capacity { vec_capacity entries.new ≡ vec_capacity entries.old }
    ensures proper { All IsProperEntry entries.new.items }
    ensures lost_copies { lost_copies.new ≡ lost_copies.old }
    ensures lost_bursts { lost_bursts.new ≡ lost_bursts.old }
{
    let frame = fibre.frames();
    ask(fibre, flights, entries, lost_copies, frame);
    land(fibre, flights, entries, lost_bursts, frame);
    fibre.end_frame();
}
