//! The last windows of a port, which of them were answered, and what the rule `twice` says by them.
ghost use Rattle.std.specs.Prelude.{◌≡◌, ◌+◌, ◌++◌, [], ◌∷◌, ◌^◌, ◌-◌, ◌<◌, ◌↔◌, suc, length, map as list_map, false, IfErr, IsOk, OnOk, OnErr, ℕ, Option};
ghost use Rattle.std.specs.List.{find, list_any};
ghost use Rattle.std.specs.Option.{option_map, option_or};
ghost use Rattle.std.specs.FinMap as fin;
ghost use Rattle.arrayvec.specs.ArrayVec.{array_vec_len};
ghost use Rattle.hear_rules.specs.Rules as rules;
ghost use Rattle.hear_rules.specs.Units as units;
ghost use Rattle.hear_notes.specs.declared.fault.NoteFault.{NoteFault};
ghost use Rattle.hear_notes.specs.Grants.{FailsBy, SameGrants, asking, granted_of, grants_of, has_no_room, marked, searched_by, searcher, waits_by};

use crate::fault::NoteFault;
use crate::granted::Granted;
use crate::searches::Searches;
use arrayvec::ArrayVec;
use gp_ploam::{BROADCAST_ONU, Serial, Up};
use gp_ranging::Grant;
use hear_rules::Verdict;
use std::alloc::Global;
use std::marker::Model;

/// So many windows are kept.
const GRANTS_KEPT: usize = 64;

/// The last windows of a port. Contracts see what is kept, which `grants_of` reads. Memory is taken only where a serial
/// number answers a search for the first time.
#[derive(Drop)]
pub struct GrantBook {
    kept: ArrayVec<Granted, GRANTS_KEPT>,
    /// How many there were.
    count: u64,
    /// The frame of the last one that isn't kept any more.
    lost: Option<u64>,
    /// The last search that each serial number answered.
    searched: Searches,
}

impl Model for GrantBook {
    ghost use Rattle.std.specs.Prelude.{⊤};
    ghost use Rattle.hear_notes.specs.Grants.{Book, book_code};

    ghost Value = { Book };

    ghost coded = { book_code };

    ghost view = { λ b. record { kept = b.kept.items; count = b.count; lost = b.lost; searched = b.searched } };
}

/// Keeps one more window. Where there is one too many the first goes; its frame is given then.
fn keep(kept: &mut ArrayVec<Granted, GRANTS_KEPT>, granted: Granted) -> Option<u64>
    ensures kept { list_map granted_of kept.new.items
        ≡ units.kept_of_all (suc (length (list_map granted_of kept.old.items)))
        (list_map granted_of kept.old.items ++ granted_of granted ∷ []) }
    ensures lost { (lost : Option ℕ) → option_or result lost
        ≡ units.lost_of_all (suc (length (list_map granted_of kept.old.items))) lost
        (list_map granted_of kept.old.items) }
{
    if !kept.is_full() {
        kept.push(granted);
        return None;
    }
    let first = kept.remove(0);
    kept.push(granted);
    Some(first.at)
}

/// Tells whether some window may be answered by this message.
fn some_asks(kept: &[Granted], grace: u32, now: u64, message: &Up) -> bool
    ensures { result
        ≡ list_any (λ granted. units.may_answer grace now (granted_of granted) message.now) kept.now }
{
    kept.iter()
        .any(|granted| granted.may_answer(grace, now, message))
}

/// Gives the first window that waits for this message.
fn first_waiting(
    kept: &[Granted],
    grace: u32,
    now: u64,
    searched: Option<u64>,
    message: &Up,
) -> Option<Granted>
    ensures { result
        ≡ find (λ granted. waits_by grace now searched (granted_of granted) message.now) kept.now }
{
    kept.iter()
        .find(|granted| granted.waits(grace, now, searched, message))
        .copied()
}

/// Notes that the window with this number was answered.
fn mark(kept: &mut [Granted], number: u64)
    ensures { kept.new ≡ list_map (marked number) kept.old }
{
    for granted in kept.iter_mut() {
        *granted = granted.marked(number);
    }
}

/// Gives the serial number in a search's answer.
fn asking(message: &Up) -> Option<Serial>
    ensures { result ≡ asking message.now }
{
    match message {
        Up::SerialNumber { onu, serial, .. } if *onu == BROADCAST_ONU => Some(*serial),
        _ => None,
    }
}

/// Tells whether there is such a frame, and it is one of the last.
fn is_near(at: Option<u64>, grace: u32, now: u64) -> bool
    ensures first { result ≡ units.is_first grace now at }
    ensures lost { result ≡ units.is_lost grace now at }
{
    match at {
        None => false,
        Some(at) => now <= at.saturating_add(u64::from(grace)),
    }
}

impl GrantBook {
    /// There were no windows.
    pub fn begin(alloc: Global) -> GrantBook
        ensures { SameGrants (grants_of result) units.no_grants }
    {
        GrantBook {
            kept: ArrayVec::new(),
            count: 0,
            lost: None,
            searched: Searches::new(alloc),
        }
    }

    /// Notes that a window is opened in this frame. Fails only where 2^64 - 1 were; nothing changes then.
    pub fn grant(&mut self, now: u64, grant: Grant) -> Result<(), NoteFault>
        ensures notes { OnOk result
            (SameGrants (grants_of self.new) (units.grants_after now (grants_of self.old) grant)) }
        ensures room { IsOk result ↔ (let grants = grants_of self.old in grants.count < 2 ^ 64 - 1) }
        ensures same { OnErr result (self.new ≡ self.old) }
        ensures fails { IfErr result (λ fault. fault ≡ NoteFault.Full) }
    {
        let number = self.count;
        let Some(count) = number.checked_add(1) else {
            return Err(NoteFault::Full);
        };
        let lost = keep(
            &mut self.kept,
            Granted {
                grant,
                at: now,
                number,
                answered: false,
            },
        );
        self.lost = lost.or(self.lost);
        self.count = count;
        Ok(())
    }

    /// Gives the last search that the serial number in this message answered.
    fn searched_by(&self, message: &Up) -> Option<u64>
        ensures { result ≡ (let book = self.now in searched_by book.searched message.now) }
    {
        match message {
            Up::SerialNumber { serial, .. } => self.searched.get(serial),
            _ => None,
        }
    }

    /// Gives the number of the first window that waits for this message.
    fn waiting(&self, grace: u32, now: u64, message: &Up) -> Option<u64>
        ensures { result
            ≡ (let grants = grants_of self.now in units.first_waiting grace now grants grants.kept message.now) }
    {
        let searched = self.searched_by(message);
        let granted = first_waiting(self.kept.as_slice(), grace, now, searched, message)?;
        Some(granted.number)
    }

    /// Notes that the window with this number had this answer.
    fn note(&mut self, number: u64, message: &Up) -> Result<(), NoteFault>
        ensures notes { OnOk result
            (SameGrants (grants_of self.new) (units.answered_by (grants_of self.old) number message.now)) }
        ensures room { OnOk result (has_no_room self.old (asking message.now) ≡ false) }
        ensures same { OnErr result (self.new ≡ self.old) }
        ensures fails { IfErr result (FailsBy self.old (asking message.now)) }
    {
        match asking(message) {
            Some(serial) => self.searched.put(&serial, number),
            None => {
                mark(self.kept.as_mut_slice(), number);
                Ok(())
            }
        }
    }

    /// Notes that a unit answers in this frame. Fails only where its serial number answers a search for the first time,
    /// and there is no memory or no room; nothing changes then.
    pub fn answer(&mut self, grace: u32, now: u64, message: &Up) -> Result<(), NoteFault>
        ensures notes { OnOk result
            (SameGrants (grants_of self.new) (units.grants_with grace now (grants_of self.old) message.now)) }
        ensures room { OnOk result
            (has_no_room self.old (searcher grace now self.old message.now) ≡ false) }
        ensures same { OnErr result (self.new ≡ self.old) }
        ensures fails { IfErr result (FailsBy self.old (searcher grace now self.old message.now)) }
    {
        match self.waiting(grace, now, message) {
            None => Ok(()),
            Some(number) => self.note(number, message),
        }
    }

    /// `twice`: it answers, and all windows of the last frames that ask it were answered. Not judged where no such
    /// window is kept, where one of the last frames isn't kept any more, nor in the first frames of a log that may
    /// begin in the middle, in the frame `begun`.
    pub fn twice(&self, grace: u32, begun: Option<u64>, now: u64, message: &Up) -> Verdict
        ensures { (settings : rules.Settings) → settings.grace ≡ grace
            → result ≡ units.twice settings (grants_of self.now) begun now message.now }
    {
        if is_near(begun, grace, now)
            || is_near(self.lost, grace, now)
            || !some_asks(self.kept.as_slice(), grace, now, message)
        {
            return Verdict::NotJudged;
        }
        match self.waiting(grace, now, message) {
            Some(_) => Verdict::Kept,
            None => Verdict::Broken,
        }
    }
}
