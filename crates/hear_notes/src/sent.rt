//! What was sent last about each ONU-ID's holder and delay, about all ONU-IDs and all serial numbers, and how often.
ghost use Rattle.std.specs.Prelude.{◌≡◌, ◌↔◌, IfOk, IsOk, IfErr, OnOk, OnErr, set, true};
ghost use Rattle.hear_rules.specs.Copies as copies;
ghost use Rattle.hear_rules.specs.Copies.{OfAllOnus, OfAllSerials, OfDelay, OfHolder, Sendings, sendings_after};
ghost use Rattle.hear_rules.specs.Units as units;
ghost use Rattle.hear_rules.specs.Units.{Tallies, tallies_after};
ghost use Rattle.hear_notes.specs.declared.fault.NoteFault.{NoteFault};
ghost use Rattle.hear_notes.specs.Sendings.{sending_of, tally_of};
ghost use Rattle.hear_notes.specs.Sent.{AgreeSendings, AgreeTallies, IsTallied, has_room, has_room_in, place_of, row_of, sent_about, subject_at, tallied_about};

use crate::fault::NoteFault;
use crate::sending::{Sending, Tally};
use gp_ploam::{BROADCAST_ONU, Down};
use std::alloc::{AllocError, Global};
use std::marker::Model;

/// A row for each number that an octet can be.
const ONU_ROWS: usize = 256;

/// What was sent last about something, and how often.
#[derive(Clone, Copy, Debug, PartialEq, Eq)]
pub(crate) struct SentRow {
    pub(crate) sending: Sending,
    pub(crate) tally: Tally,
}

/// What was sent last about each ONU-ID's holder and delay, about all ONU-IDs and all serial numbers, and how often.
/// After it is begun it takes no memory. Contracts see what is kept.
#[derive(Drop)]
pub struct SentBook {
    holders: Vec<SentRow>,
    delays: Vec<SentRow>,
    all_onus: SentRow,
    all_serials: Sending,
}

impl Model for SentBook {
    ghost use Rattle.std.specs.Prelude.{◌≡◌, length};
    ghost use Rattle.hear_notes.specs.Sent.{SentKept, sent_code};

    ghost Value = { SentKept };

    ghost coded = { sent_code };

    ghost view = { λ b. record {
      holders = b.holders.items;
      delays = b.delays.items;
      all_onus = b.all_onus;
      all_serials = b.all_serials;
    } };

    ghost invariant = { λ b. (length b.holders.items ≡ 256) × (length b.delays.items ≡ 256) };
}

/// What a message is about, of which it is kept here what was sent last.
#[derive(Clone, Copy, Debug, PartialEq, Eq)]
pub enum Place {
    /// Who holds this ONU-ID.
    Holder(u8),
    /// The equalization delay of this ONU-ID.
    Delay(u8),
    /// All ONU-IDs.
    AllOnus,
    /// All serial numbers; how often isn't kept of it.
    AllSerials,
    /// Something else.
    Elsewhere,
}

/// What a message is about.
fn place_of(message: &Down) -> Place
    ensures { result ≡ place_of message.now }
{
    match *message {
        Down::Deactivate { onu } if onu == BROADCAST_ONU => Place::AllOnus,
        Down::AssignOnu { onu, .. } | Down::Deactivate { onu } => Place::Holder(onu),
        Down::RangingTime { onu, .. } => Place::Delay(onu),
        Down::EnableAll => Place::AllSerials,
        _ => Place::Elsewhere,
    }
}

impl SentRow {
    /// The row once a message about the same thing is sent in this frame. Fails only where 2^64 - 1 were.
    fn after(self, now: u64, message: &Down) -> Result<SentRow, NoteFault>
        ensures sends { IfOk result (λ row. sending_of row.sending
            ≡ copies.sending_after (sending_of self.sending) now message.now) }
        ensures tells { IfOk result (λ row. tally_of row.tally
            ≡ units.tally_after (tally_of self.tally) now message.now) }
        ensures room { IsOk result ↔ (has_room self.tally ≡ true) }
        ensures fails { IfErr result (λ fault. fault ≡ NoteFault.Full) }
    {
        Ok(SentRow {
            sending: self.sending.after(now, message),
            tally: self.tally.after(now, message)?,
        })
    }
}

impl SentBook {
    /// The rows of a log of which nothing was heard.
    fn begin(alloc: Global, sending: Sending) -> Result<SentBook, AllocError>
        ensures sends { IfOk result (λ book. AgreeSendings book (λ subject. sending_of sending)) }
        ensures tells { IfOk result (λ book. AgreeTallies book (λ subject. units.Untold)) }
    {
        let row = SentRow {
            sending,
            tally: Tally::Untold,
        };
        Ok(SentBook {
            holders: vec![in alloc; row; ONU_ROWS]?,
            delays: vec![in alloc; row; ONU_ROWS]?,
            all_onus: row,
            all_serials: sending,
        })
    }

    /// From the first message on nothing was sent. Fails only where there is no memory.
    pub fn begin_whole(alloc: Global) -> Result<SentBook, AllocError>
        ensures sends { IfOk result (λ book. AgreeSendings book (λ subject. copies.Silent)) }
        ensures tells { IfOk result (λ book. AgreeTallies book (λ subject. units.Untold)) }
    {
        SentBook::begin(alloc, Sending::Silent)
    }

    /// From the middle on it isn't known what was sent. Fails only where there is no memory.
    pub fn begin_midway(alloc: Global) -> Result<SentBook, AllocError>
        ensures sends { IfOk result (λ book. AgreeSendings book (λ subject. copies.Cut)) }
        ensures tells { IfOk result (λ book. AgreeTallies book (λ subject. units.Untold)) }
    {
        SentBook::begin(alloc, Sending::Cut)
    }

    /// Notes a message about an ONU-ID's holder, which may end what was sent of its delay.
    fn note_holder(&mut self, onu: u8, now: u64, message: &Down) -> Result<(), NoteFault>
        ensures sends { (sendings : Sendings) → AgreeSendings self.old sendings
            → OnOk result (AgreeSendings self.new (sent_about sendings now message.now (OfHolder onu))) }
        ensures tells { (tallies : Tallies) → AgreeTallies self.old tallies
            → OnOk result (AgreeTallies self.new (tallied_about tallies now message.now (OfHolder onu))) }
        ensures room { IsOk result
            ↔ (let row = (let book = self.old in row_of book.holders onu) in has_room row.tally ≡ true) }
        ensures same { OnErr result (self.new ≡ self.old) }
        ensures fails { IfErr result (λ fault. fault ≡ NoteFault.Full) }
    {
        let place = usize::from(onu);
        let row = self.holders.as_slice()[place];
        let delay = self.delays.as_slice()[place];
        let sent = row.after(now, message)?;
        let sending = delay.sending.ended_where(row.sending.is_another(message));
        self.holders[place] = sent;
        self.delays[place] = SentRow { sending, ..delay };
        Ok(())
    }

    /// Notes a message about an ONU-ID's delay.
    fn note_delay(&mut self, onu: u8, now: u64, message: &Down) -> Result<(), NoteFault>
        ensures sends { (sendings : Sendings) → AgreeSendings self.old sendings
            → OnOk result (AgreeSendings self.new (sent_about sendings now message.now (OfDelay onu))) }
        ensures tells { (tallies : Tallies) → AgreeTallies self.old tallies
            → OnOk result (AgreeTallies self.new (tallied_about tallies now message.now (OfDelay onu))) }
        ensures room { IsOk result
            ↔ (let row = (let book = self.old in row_of book.delays onu) in has_room row.tally ≡ true) }
        ensures same { OnErr result (self.new ≡ self.old) }
        ensures fails { IfErr result (λ fault. fault ≡ NoteFault.Full) }
    {
        let place = usize::from(onu);
        let row = self.delays.as_slice()[place];
        self.delays[place] = row.after(now, message)?;
        Ok(())
    }

    /// Notes a message about all ONU-IDs.
    fn note_all_onus(&mut self, now: u64, message: &Down) -> Result<(), NoteFault>
        ensures sends { (sendings : Sendings) → AgreeSendings self.old sendings
            → OnOk result (AgreeSendings self.new (sent_about sendings now message.now OfAllOnus)) }
        ensures tells { (tallies : Tallies) → AgreeTallies self.old tallies
            → OnOk result (AgreeTallies self.new (tallied_about tallies now message.now OfAllOnus)) }
        ensures room { IsOk result ↔ (let row = (let book = self.old in book.all_onus) in has_room row.tally ≡ true) }
        ensures same { OnErr result (self.new ≡ self.old) }
        ensures fails { IfErr result (λ fault. fault ≡ NoteFault.Full) }
    {
        self.all_onus = self.all_onus.after(now, message)?;
        Ok(())
    }

    /// Notes a message about all serial numbers.
    fn note_all_serials(&mut self, now: u64, message: &Down)
        ensures sends { (sendings : Sendings) → AgreeSendings self.old sendings
            → AgreeSendings self.new (sent_about sendings now message.now OfAllSerials) }
        ensures tells { (tallies : Tallies) → AgreeTallies self.old tallies
            → AgreeTallies self.new (tallied_about tallies now message.now OfAllSerials) }
    {
        self.all_serials = self.all_serials.after(now, message);
    }

    /// Notes that a message is sent in this frame. Fails only where 2^64 - 1 were about the same thing; nothing changes
    /// then.
    pub fn sent(&mut self, now: u64, message: &Down) -> Result<(), NoteFault>
        ensures sends { (sendings : Sendings) → AgreeSendings self.old sendings
            → OnOk result (AgreeSendings self.new (sendings_after sendings now message.now)) }
        ensures tells { (tallies : Tallies) → AgreeTallies self.old tallies
            → OnOk result (AgreeTallies self.new (tallies_after tallies now message.now)) }
        ensures room { IsOk result ↔ (has_room_in self.old (place_of message.now) ≡ true) }
        ensures same { OnErr result (self.new ≡ self.old) }
        ensures fails { IfErr result (λ fault. fault ≡ NoteFault.Full) }
    {
        match place_of(message) {
            Place::Holder(onu) => self.note_holder(onu, now, message),
            Place::Delay(onu) => self.note_delay(onu, now, message),
            Place::AllOnus => self.note_all_onus(now, message),
            Place::AllSerials => {
                self.note_all_serials(now, message);
                Ok(())
            }
            Place::Elsewhere => Ok(()),
        }
    }

    /// Whether the next copy of what was sent last about this is to come, and is late.
    pub fn is_overdue(&self, now: u64, place: Place) -> bool
        ensures { (sendings : Sendings) → AgreeSendings self.now sendings
            → result ≡ copies.overdue sendings now (subject_at place) }
    {
        match place {
            Place::Holder(onu) => self.holders.as_slice()[usize::from(onu)]
                .sending
                .is_overdue(now),
            Place::Delay(onu) => self.delays.as_slice()[usize::from(onu)]
                .sending
                .is_overdue(now),
            Place::AllOnus => self.all_onus.sending.is_overdue(now),
            Place::AllSerials => self.all_serials.is_overdue(now),
            Place::Elsewhere => false,
        }
    }

    /// Whether one message alone was sent about this since there were so many, three times or more, the last time more
    /// frames ago than the grace.
    pub fn is_settled(&self, grace: u32, now: u64, base: u64, place: Place) -> bool
        ensures { (tallies : Tallies) → AgreeTallies self.now tallies → IsTallied place
            → result ≡ units.is_settled grace now base (tallies (subject_at place)) }
    {
        match place {
            Place::Holder(onu) => self.holders.as_slice()[usize::from(onu)]
                .tally
                .is_settled(grace, now, base),
            Place::Delay(onu) => self.delays.as_slice()[usize::from(onu)]
                .tally
                .is_settled(grace, now, base),
            Place::AllOnus => self.all_onus.tally.is_settled(grace, now, base),
            Place::AllSerials | Place::Elsewhere => false,
        }
    }
}
