//! What an observer knows by number: who holds each ONU-ID, its delay and its answers, and whose each Alloc-ID is.
ghost use Rattle.std.specs.Prelude.{◌≡◌, ℕ, ◌<◌, ◌≤◌, ◌==◌, IfOk, None, is_none, length, slice_index_or};
ghost use Rattle.std.specs.FinMap as map;
ghost use Rattle.std.specs.FinSet as finset;
ghost use Rattle.gp_pools.specs.Limits.{last_alloc_id};
ghost use Rattle.gp_observer.specs.Observer.{some_passes};
ghost use Rattle.gp_observer.specs.Watch.{answers_of, with_answer};
ghost use Rattle.gp_observer.specs.Rules.{leaves_no_answer};
ghost use Rattle.gp_watch.specs.Heard.{settings_of};
ghost use Rattle.gp_watch.specs.Tables.{no_numbers, numbers_without, AreLow};

use crate::answers::UnitAnswers;
use crate::heard::Settings;
use crate::owners::Owners;
use gp_numbers::NumberSet;
use gp_ploam::Serial;
use std::alloc::{AllocError, Global};
use std::marker::Model;

/// A place for each ONU-ID.
const ONU_PLACES: usize = 256;

/// What is known by number. After `begin` it takes no memory.
#[derive(Drop)]
pub(crate) struct Tables {
    /// Who holds each ONU-ID.
    holders: Vec<Option<Serial>>,
    /// The ONU-ID that each Alloc-ID belongs to.
    owners: Owners,
    /// The equalization delay that was told with each ONU-ID.
    delays: Vec<Option<u32>>,
    /// The answers with each ONU-ID.
    answers: Vec<UnitAnswers>,
    /// The ONU-IDs that were told of an Alloc-ID.
    told: NumberSet<0, 4>,
}

impl Model for Tables {
    ghost use Rattle.std.specs.Prelude.{◌≡◌, length};
    ghost use Rattle.gp_watch.specs.Places.{map_of};
    ghost use Rattle.gp_watch.specs.Tables.{Numbers, numbers_code};

    ghost Value = { Numbers };

    ghost coded = { numbers_code };

    ghost view = { λ t. record {
      holder = map_of t.holders.items;
      alloc = t.owners;
      delay = map_of t.delays.items;
      answers = map_of t.answers.items;
      told = t.told;
    } };

    ghost invariant = { λ t. (length t.holders.items ≡ 256) × (length t.delays.items ≡ 256)
        × (length t.answers.items ≡ 256) };
}

/// Empties each place.
fn clear(places: &mut [Option<u32>])
    ensures { (place : ℕ) → slice_index_or places.new place None ≡ None }
{
    for place in places.iter_mut() {
        *place = None;
    }
}

/// A place for the answers with each ONU-ID: there are none.
fn no_answers(alloc: Global) -> Result<Vec<UnitAnswers>, AllocError>
    ensures long { IfOk result (λ places. length places.items ≡ 256) }
    ensures none { IfOk result (λ places. (place : ℕ) → slice_index_or places.items place None ≡ None) }
{
    let mut places = Vec::with_capacity(alloc, ONU_PLACES)?;
    for _ in 0..ONU_PLACES {
        places.push(UnitAnswers::none())?;
    }
    Ok(places)
}

impl Tables {
    /// Tables that say nothing. Fails only where there is no memory.
    pub(crate) fn begin(alloc: Global) -> Result<Tables, AllocError>
        ensures { IfOk result (λ tables. tables ≡ no_numbers) }
    {
        let holders = vec![in alloc; None; ONU_PLACES]?;
        let delays = vec![in alloc; None; ONU_PLACES]?;
        let owners = Owners::begin(alloc)?;
        let answers = no_answers(alloc)?;
        Ok(Tables {
            holders,
            owners,
            delays,
            answers,
            told: NumberSet::new(),
        })
    }

    /// Gives who holds an ONU-ID.
    pub(crate) fn holder(&self, onu: u8) -> Option<Serial>
        ensures { result ≡ map.get self.now.holder onu }
    {
        self.holders.as_slice()[usize::from(onu)]
    }

    /// Gives the delay that was told with an ONU-ID.
    pub(crate) fn delay(&self, onu: u8) -> Option<u32>
        ensures { result ≡ map.get self.now.delay onu }
    {
        self.delays.as_slice()[usize::from(onu)]
    }

    /// Gives the ONU-ID that an Alloc-ID belongs to.
    pub(crate) fn owner(&self, alloc: u16) -> Option<u8>
        ensures { result ≡ map.get self.now.alloc alloc }
    {
        self.owners.owner(alloc)
    }

    /// Tells whether there was no answer with an ONU-ID.
    pub(crate) fn is_unanswered(&self, onu: u8) -> bool
        ensures { result ≡ is_none (map.get self.now.answers onu) }
    {
        self.answers.as_slice()[usize::from(onu)].is_none()
    }

    /// Tells whether there was an answer with an ONU-ID, and all their delays are known.
    pub(crate) fn knows_delays(&self, onu: u8) -> bool
        ensures { result ≡ some_passes (λ answers. answers.all) (map.get self.now.answers onu) }
    {
        self.answers.as_slice()[usize::from(onu)].are_known()
    }

    /// Tells whether there was an answer with an ONU-ID, all their delays are known, and none of them is what this
    /// equalization delay leaves of the equalized delay.
    pub(crate) fn answers_leave_none(&self, settings: &Settings, onu: u8, eqd: u32) -> bool
        ensures { result ≡ some_passes (leaves_no_answer (settings_of settings.now) eqd)
            (map.get self.now.answers onu) }
    {
        self.answers.as_slice()[usize::from(onu)].leave_none(settings, eqd)
    }

    /// Tells whether an ONU-ID was told of an Alloc-ID.
    pub(crate) fn was_told(&self, onu: u8) -> bool
        ensures { result ≡ finset.contains self.now.told onu }
    {
        self.told.contains(u16::from(onu))
    }

    /// Notes that an ONU-ID is given up, with its Alloc-IDs, its delay and its answers.
    pub(crate) fn give_up(&mut self, onu: u8)
        ensures { self.new ≡ numbers_without self.old (λ other. other == onu) }
    {
        let place = usize::from(onu);
        self.holders[place] = None;
        self.owners.give_up(onu);
        self.delays[place] = None;
        self.answers[place].forget();
        self.told.remove(u16::from(onu));
    }

    /// Notes who holds an ONU-ID.
    pub(crate) fn set_holder(&mut self, onu: u8, serial: &Serial)
        ensures { self.new ≡ record self.old { holder = map.insert self.old.holder onu serial.now } }
    {
        self.holders[usize::from(onu)] = Some(*serial);
    }

    /// Notes the delay that was told with an ONU-ID.
    pub(crate) fn set_delay(&mut self, onu: u8, delay: u32)
        ensures { self.new ≡ record self.old { delay = map.insert self.old.delay onu delay } }
    {
        self.delays[usize::from(onu)] = Some(delay);
    }

    /// Notes that no delay holds any longer.
    pub(crate) fn clear_delays(&mut self)
        ensures { self.new ≡ record self.old { delay = map.empty } }
    {
        clear(&mut self.delays);
    }

    /// Notes that an Alloc-ID belongs to an ONU-ID.
    pub(crate) fn give(&mut self, alloc: u16, onu: u8)
        requires { alloc ≤ last_alloc_id }
        ensures { self.new ≡ record self.old { alloc = map.insert self.old.alloc alloc onu } }
    {
        self.owners.give(alloc, onu);
    }

    /// Notes that an Alloc-ID belongs to none.
    pub(crate) fn take(&mut self, alloc: u16)
        requires { alloc ≤ last_alloc_id }
        ensures { self.new ≡ record self.old { alloc = map.remove self.old.alloc alloc } }
    {
        self.owners.take(alloc);
    }

    /// Notes an answer with an ONU-ID, with its delay where it was measured.
    pub(crate) fn note_answer(&mut self, onu: u8, delay: Option<u32>)
        ensures { self.new ≡ record self.old {
          answers = map.insert self.old.answers onu
              (with_answer (answers_of (map.get self.old.answers onu)) delay);
        } }
    {
        self.answers[usize::from(onu)].note(delay);
    }

    /// Notes that an ONU-ID was told of an Alloc-ID.
    pub(crate) fn tell(&mut self, onu: u8)
        ensures { self.new ≡ record self.old { told = finset.insert self.old.told onu } }
    {
        self.told.insert(u16::from(onu));
    }

    /// Notes that none was told of an Alloc-ID.
    pub(crate) fn tell_none(&mut self)
        ensures { self.new ≡ record self.old { told = finset.empty } }
    {
        self.told = NumberSet::new();
    }

    /// States that each ONU-ID that something is known of is of one octet.
    pub(crate) fn are_low(&self)
        ensures { AreLow self.now }
    {
        self.owners.are_low();
    }
}
