//! What an observer of one port's fibre knows: `PortWatch`, what is asked of it, and each change.
ghost use Rattle.std.specs.Prelude.{◌≡◌, ℕ, ◌-◌, ◌≤◌, ◌==◌, suc, true, false, is_none, is_some, None, Some, if◌then◌else◌, IfOk, IfErr, OnOk, OnErr, IsTrue};
ghost use Rattle.std.specs.FinMap as map;
ghost use Rattle.std.specs.FinSet as finset;
ghost use Rattle.gp_ploam.specs.OnuIds.{last_onu, onu_ids};
ghost use Rattle.gp_ploam.specs.Serials.{serial_cmp};
ghost use Rattle.gp_pools.specs.Limits.{last_alloc_id};
ghost use Rattle.gp_observer.specs.Judged.{knows_delays};
ghost use Rattle.gp_observer.specs.Observer.{some_passes, is_of, with_alloc};
ghost use Rattle.gp_observer.specs.Watch.{watch_begun, numbers_below, asks_left, asks_put, asks_with, can_follow, answers_of, with_answer};
ghost use Rattle.gp_observer.specs.Rules.{leaves_no_answer};
ghost use Rattle.gp_watch.specs.Heard.{settings_of, FailsBy, IsNew};
ghost use Rattle.gp_watch.specs.Index.{released};
ghost use Rattle.gp_watch.specs.Changes.{IsOnuOf, onu_held, watch_without, watch_holding};

use crate::fault::WatchFault;
use crate::heard::Settings;
use crate::index::Index;
use crate::tables::Tables;
use gp_numbers::NumberSet;
use gp_ploam::{Down, ONU_IDS, Serial};
use std::alloc::{AllocError, Global};
use std::marker::Model;

/// How many serial numbers are followed at most.
pub const MOST_FOLLOWED: usize = 4096;

/// What an observer of one port's fibre knows. Contracts see what `gp_observer` defines. Memory is taken by `begin`,
/// and where a serial number is new.
#[derive(Drop)]
pub struct PortWatch {
    tables: Tables,
    index: Index,
    /// The ONU-IDs of which it isn't known who holds them.
    unknown: NumberSet<0, 4>,
    /// The last message down.
    last: Down,
    /// How many of its copies are still to come.
    to_come: u8,
    /// Whether it began in the middle.
    midway: bool,
    /// Whether only copies of one message were heard since it began in the middle.
    cut: bool,
}

impl Model for PortWatch {
    ghost use Rattle.gp_observer.specs.Watch.{Watch};
    ghost use Rattle.gp_watch.specs.Kept.{watch_code, watch_of, IsIndexed, onu_with};

    ghost Value = { Watch };

    ghost coded = { watch_code };

    ghost view = { λ w. watch_of w.tables w.index w.unknown w.last w.to_come w.midway w.cut };

    ghost invariant = { λ w. IsIndexed w.tables.holder (onu_with w.index) };
}

/// All ONU-IDs that units may have.
fn all_onus() -> NumberSet<0, 4>
    ensures { result ≡ numbers_below onu_ids }
{
    let mut onus = NumberSet::new();
    for onu in 0..u16::from(ONU_IDS) {
        onus.insert(onu);
    }
    onus
}

/// The ONU-IDs of which it isn't known who holds them, at first.
fn unknown_at_first(midway: bool) -> NumberSet<0, 4>
    ensures { result ≡ (if midway then numbers_below onu_ids else finset.empty) }
{
    if midway { all_onus() } else { NumberSet::new() }
}

/// Takes its ONU-ID from the unit that holds it, if one does.
fn release(index: &mut Index, holder: Option<Serial>)
    ensures { index.new ≡ released index.old holder }
{
    if let Some(serial) = holder {
        index.set_onu(&serial, None);
    }
}

impl PortWatch {
    /// Nothing is known; where it begins in the middle, not even that nobody holds an ONU-ID. Fails only where there is
    /// no memory.
    pub fn begin(alloc: Global, midway: bool) -> Result<PortWatch, AllocError>
        ensures { IfOk result (λ watch. watch ≡ watch_begun midway) }
    {
        let tables = Tables::begin(alloc)?;
        Ok(PortWatch {
            tables,
            index: Index::new(alloc),
            unknown: unknown_at_first(midway),
            last: Down::NoMessage,
            to_come: 0,
            midway,
            cut: midway,
        })
    }

    /// Gives the serial number that holds an ONU-ID.
    pub fn holder(&self, onu: u8) -> Option<Serial>
        ensures { result ≡ map.get self.now.seen.holder onu }
    {
        self.tables.holder(onu)
    }

    /// Gives the ONU-ID that a serial number holds.
    pub fn onu_of(&self, serial: &Serial) -> Option<u8>
        ensures is { IsOnuOf self.now serial.now result }
        ensures held { result ≡ onu_held self.now serial.now }
    {
        match self.index.get(serial) {
            Some(followed) => followed.onu,
            None => None,
        }
    }

    /// Tells whether a serial number holds this ONU-ID.
    pub fn is_of(&self, serial: &Serial, onu: u8) -> bool
        ensures { result ≡ is_of self.now.seen serial.now onu }
    {
        match self.holder(onu) {
            Some(holder) => *serial == holder,
            None => false,
        }
    }

    /// Gives the equalization delay that was told with an ONU-ID, in bit times.
    pub fn delay(&self, onu: u8) -> Option<u32>
        ensures { result ≡ map.get self.now.seen.delay onu }
    {
        self.tables.delay(onu)
    }

    /// Gives the ONU-ID that a further Alloc-ID belongs to.
    pub fn owner(&self, alloc: u16) -> Option<u8>
        ensures { result ≡ map.get self.now.seen.alloc alloc }
    {
        self.tables.owner(alloc)
    }

    /// Gives how many asks a serial number has left; None where it is not followed and there is no room for it.
    pub fn asks_left(&self, serial: &Serial) -> Option<u64>
        ensures { result ≡ asks_left self.now serial.now }
    {
        match self.index.get(serial) {
            Some(followed) => Some(followed.asks),
            None if self.index.len() < MOST_FOLLOWED => Some(0),
            None => None,
        }
    }

    /// Tells whether a serial number can be followed: it is, or there is room for it.
    pub fn can_follow(&self, serial: &Serial) -> bool
        ensures { result ≡ can_follow self.now serial.now }
    {
        self.asks_left(serial).is_some()
    }

    /// Tells whether a serial number is disabled.
    pub fn is_disabled(&self, serial: &Serial) -> bool
        ensures { result ≡ finset.contains self.now.seen.disabled serial.now }
    {
        match self.index.get(serial) {
            Some(followed) => followed.disabled,
            None => false,
        }
    }

    /// Tells whether no unit gave its serial number with this ONU-ID since it was assigned.
    pub fn is_unanswered(&self, onu: u8) -> bool
        ensures { result ≡ is_none (map.get self.now.answers onu) }
    {
        self.tables.is_unanswered(onu)
    }

    /// Tells whether a unit gave its serial number with this ONU-ID, and the delays of all its answers are known.
    pub fn knows_delays(&self, onu: u8) -> bool
        ensures { result ≡ knows_delays self.now onu }
    {
        self.tables.knows_delays(onu)
    }

    /// Tells whether a unit gave its serial number with this ONU-ID, the delays of all its answers are known, and none
    /// of them is what this equalization delay leaves of the equalized delay.
    pub fn answers_leave_none(&self, settings: &Settings, onu: u8, eqd: u32) -> bool
        ensures { result ≡ some_passes (leaves_no_answer (settings_of settings.now) eqd)
            (map.get self.now.answers onu) }
    {
        self.tables.answers_leave_none(settings, onu, eqd)
    }

    /// Tells whether an Assign_Alloc-ID was sent to this ONU-ID since it was assigned.
    pub fn was_told(&self, onu: u8) -> bool
        ensures { result ≡ finset.contains self.now.told onu }
    {
        self.tables.was_told(onu)
    }

    /// Tells whether it isn't known who holds an ONU-ID.
    pub fn is_unknown(&self, onu: u8) -> bool
        ensures { result ≡ finset.contains self.now.unknown onu }
    {
        self.unknown.contains(u16::from(onu))
    }

    /// Gives the last message down.
    pub fn last(&self) -> Down
        ensures { result ≡ self.now.last }
    {
        self.last
    }

    /// Gives how many copies of the last message down are still to come.
    pub fn to_come(&self) -> u8
        ensures { result ≡ self.now.to_come }
    {
        self.to_come
    }

    /// Tells whether it began in the middle.
    pub fn is_midway(&self) -> bool
        ensures { result ≡ self.now.midway }
    {
        self.midway
    }

    /// Tells whether it began in the middle, and only copies of one message were heard since.
    pub fn is_cut(&self) -> bool
        ensures { result ≡ self.now.cut }
    {
        self.cut
    }

    /// Notes that an ONU-ID is given up.
    pub(crate) fn give_up(&mut self, onu: u8)
        ensures { self.new ≡ watch_without self.old (λ other. other == onu) }
    {
        release(&mut self.index, self.tables.holder(onu));
        self.tables.give_up(onu);
    }

    /// Notes that the ONU-ID of a serial number is given up, where it holds one.
    pub(crate) fn give_up_of(&mut self, serial: &Serial)
        ensures { self.new ≡ watch_without self.old (is_of self.old.seen serial.now) }
    {
        if let Some(onu) = self.onu_of(serial) {
            self.give_up(onu);
        }
    }

    /// Notes that all ONU-IDs are given up.
    pub(crate) fn give_up_all(&mut self)
        ensures { self.new ≡ watch_without self.old (λ _. true) }
    {
        self.tables.are_low();
        for onu in 0..256u16 {
            self.give_up(onu as u8);
        }
        self.tables.tell_none();
    }

    /// Notes that a serial number that is followed holds an ONU-ID that nobody holds.
    pub(crate) fn hold(&mut self, onu: u8, serial: &Serial)
        requires low { onu ≤ last_onu }
        requires nobodys { map.get self.old.seen.holder onu ≡ None }
        requires none { (other : ℕ) → is_of self.old.seen serial.now other ≡ false }
        requires followed { IsTrue (is_some (map.get self.old.asks serial.now)) }
        ensures { self.new ≡ watch_holding self.old onu serial.now }
    {
        self.tables.set_holder(onu, serial);
        self.index.set_onu(serial, Some(onu));
        self.unknown.remove(u16::from(onu));
    }

    /// Notes that it isn't known who holds an ONU-ID.
    pub(crate) fn lose(&mut self, onu: u8)
        ensures { self.new ≡ record self.old { unknown = finset.insert self.old.unknown onu } }
    {
        self.unknown.insert(u16::from(onu));
    }

    /// Follows a serial number that is new and has asked so often, where there is room, and tells whether there is.
    fn follow_new(&mut self, serial: &Serial, asks: u64) -> Result<bool, AllocError>
        requires { map.get self.old.asks serial.now ≡ None }
        ensures followed { IfOk result (λ followed. followed ≡ can_follow self.old serial.now) }
        ensures asks { IfOk result (λ followed. self.new ≡ record self.old {
          asks = asks_put self.old.asks serial.now
              (if followed then Some asks else None);
        }) }
        ensures same { OnErr result (self.new ≡ self.old) }
        ensures new { OnErr result (IsNew self.old (Some serial.now)) }
    {
        if self.index.len() >= MOST_FOLLOWED {
            return Ok(false);
        }
        self.index.follow(serial, asks)?;
        Ok(true)
    }

    /// Notes that a serial number asks.
    pub(crate) fn note_ask(&mut self, serial: &Serial) -> Result<(), WatchFault>
        ensures ok { OnOk result (self.new
            ≡ record self.old { asks = asks_with self.old serial.now (λ asks. suc asks) }) }
        ensures same { OnErr result (self.new ≡ self.old) }
        ensures fails { IfErr result (FailsBy self.old (Some serial.now)) }
    {
        match self.index.get(serial) {
            Some(followed) => {
                if followed.asks == u64::MAX {
                    return Err(WatchFault::Full);
                }
                self.index.set_asks(serial, followed.asks + 1);
            }
            None => {
                self.follow_new(serial, 1)?;
            }
        }
        Ok(())
    }

    /// Takes an ask from a serial number, which is followed from now on where it can be, and tells whether it is.
    pub(crate) fn take_ask(&mut self, serial: &Serial) -> Result<bool, AllocError>
        ensures followed { IfOk result (λ followed. followed ≡ can_follow self.old serial.now) }
        ensures asks { OnOk result (self.new
            ≡ record self.old { asks = asks_with self.old serial.now (λ asks. asks - 1) }) }
        ensures same { OnErr result (self.new ≡ self.old) }
        ensures new { OnErr result (IsNew self.old (Some serial.now)) }
    {
        match self.index.get(serial) {
            Some(followed) => {
                self.index.set_asks(serial, followed.asks.saturating_sub(1));
                Ok(true)
            }
            None => self.follow_new(serial, 0),
        }
    }

    /// Follows a serial number from now on where it can be, and tells whether it is.
    pub(crate) fn follow(&mut self, serial: &Serial) -> Result<bool, AllocError>
        ensures followed { IfOk result (λ followed. followed ≡ can_follow self.old serial.now) }
        ensures none { IfOk result (λ followed. followed ≡ false → (onu : ℕ)
            → is_of self.old.seen serial.now onu ≡ false) }
        ensures asks { OnOk result (self.new
            ≡ record self.old { asks = asks_with self.old serial.now (λ asks. asks) }) }
        ensures same { OnErr result (self.new ≡ self.old) }
        ensures new { OnErr result (IsNew self.old (Some serial.now)) }
    {
        match self.index.get(serial) {
            Some(_) => Ok(true),
            None => self.follow_new(serial, 0),
        }
    }

    /// Notes that a serial number that is followed is disabled.
    pub(crate) fn disable(&mut self, serial: &Serial)
        requires { IsTrue (is_some (map.get self.old.asks serial.now)) }
        ensures { self.new ≡ record self.old {
          seen = record self.old.seen {
            disabled
                = finset.insert self.old.seen.disabled serial.now;
          };
        } }
    {
        self.index.set_disabled(serial, true);
    }

    /// Notes that a serial number isn't disabled.
    pub(crate) fn enable(&mut self, serial: &Serial)
        ensures { self.new ≡ record self.old {
          seen = record self.old.seen {
            disabled
                = finset.remove self.old.seen.disabled serial.now;
          };
        } }
    {
        self.index.set_disabled(serial, false);
    }

    /// Notes that no serial number is disabled.
    pub(crate) fn enable_all(&mut self)
        ensures { self.new ≡ record self.old { seen = record self.old.seen { disabled = finset.empty } } }
    {
        self.index.enable_all();
    }

    /// Notes the delay that was told with an ONU-ID.
    pub(crate) fn set_delay(&mut self, onu: u8, eqd: u32)
        ensures { self.new ≡ record self.old {
          seen = record self.old.seen {
            delay
                = map.insert self.old.seen.delay onu eqd;
          };
        } }
    {
        self.tables.set_delay(onu, eqd);
    }

    /// Notes that no delay holds any longer.
    pub(crate) fn clear_delays(&mut self)
        ensures { self.new ≡ record self.old { seen = record self.old.seen { delay = map.empty } } }
    {
        self.tables.clear_delays();
    }

    /// Notes that an Alloc-ID is given to an ONU-ID, or taken back, and that the ONU-ID was told of one.
    pub(crate) fn assign_alloc(&mut self, onu: u8, alloc: u16, keep: bool)
        requires { alloc ≤ last_alloc_id }
        ensures { self.new ≡ record self.old {
          seen = with_alloc self.old.seen onu alloc keep;
          told = finset.insert self.old.told onu;
        } }
    {
        if keep {
            self.tables.give(alloc, onu);
        } else {
            self.tables.take(alloc);
        }
        self.tables.tell(onu);
    }

    /// Notes an answer with an ONU-ID, with its delay where it was measured.
    pub(crate) fn note_answer(&mut self, onu: u8, delay: Option<u32>)
        ensures { self.new ≡ record self.old {
          answers = map.insert self.old.answers onu
              (with_answer (answers_of (map.get self.old.answers onu)) delay);
        } }
    {
        self.tables.note_answer(onu, delay);
    }

    /// Notes that the first copy of a message down was heard.
    pub(crate) fn begin_copies(&mut self, message: &Down)
        ensures { self.new ≡ record self.old { last = message.now; to_come = 2; cut = false } }
    {
        self.last = *message;
        self.to_come = 2;
        self.cut = false;
    }

    /// Notes that a copy of a message down was passed over.
    pub(crate) fn pass_over(&mut self, message: &Down)
        ensures { self.new ≡ record self.old { last = message.now } }
    {
        self.last = *message;
    }

    /// Notes that a further copy of the last message down was heard.
    pub(crate) fn note_copy(&mut self)
        ensures { self.new ≡ record self.old { to_come = self.old.to_come - 1 } }
    {
        self.to_come = self.to_come.saturating_sub(1);
    }
}
