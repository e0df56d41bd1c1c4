//! Whose each Alloc-ID is, and whose it was last: by the tenures of the ONU-IDs, so that none is looked at when an
//! ONU-ID loses its Alloc-IDs.
ghost use Rattle.std.specs.Prelude.{◌≡◌, ◌-◌, ◌^◌, ◌<◌, ◌≤◌, IfOk, map as list_map, replicate, set, slice_index_or, if◌then◌else◌};
ghost use Rattle.gp_pools.specs.Limits.{last_alloc_id};
ghost use Rattle.hear_rules.specs.Facts.{Nothing, Yes};
ghost use Rattle.hear_rules.specs.Known.{Free, Has, Unclear, owner_after, owner_back, owner_given};
ghost use Rattle.hear_state.specs.Facts.{fact_of, sure_of};
ghost use Rattle.hear_state.specs.Owners.{left_in, lost_if, lost_only, lost_place, next_tenure, owner_in, owner_of, settled, settled_in, tenure_at};

use crate::facts::{Fact, Sure};
use std::alloc::{AllocError, Global};
use std::marker::Model;

/// A tenure for each number that an octet can be.
const ONU_PLACES: usize = 256;

/// A place for each Alloc-ID of twelve bits.
const ALLOC_PLACES: usize = 4096;

/// Whose an Alloc-ID is.
#[derive(Clone, Copy, Debug, PartialEq, Eq)]
pub(crate) enum Owner {
    /// It isn't known whose it is.
    Unclear,
    /// It is nobody's; whose it was last.
    Free { last: Fact<u8> },
    /// It belongs to this ONU-ID; whose it was before.
    Has { onu: u8, last: Fact<u8> },
}

impl Owner {
    /// Whose it was before, once it is given to this ONU-ID.
    fn before(self, onu: u8) -> Fact<u8>
        ensures { Has onu (fact_of result) ≡ owner_given (owner_of self) onu }
    {
        match self {
            Owner::Unclear => Fact::Unknown,
            Owner::Free { last } => last,
            Owner::Has { onu: other, last } if other == onu => last,
            Owner::Has { onu: other, .. } => Fact::Is(other),
        }
    }
}

/// What was said of an Alloc-ID last.
#[derive(Clone, Copy)]
enum Place {
    /// It isn't known.
    Unclear,
    /// Nothing, from the first message on.
    Never,
    /// It was given to this ONU-ID, in this tenure of it; whose it was before.
    Given {
        onu: u8,
        tenure: u64,
        last: Fact<u8>,
    },
    /// This ONU-ID lost it, or it was taken back from it, in this tenure of it.
    Back {
        onu: u8,
        tenure: u64,
    },
}

/// The tenures of an ONU-ID: one begins whenever it loses its Alloc-IDs, or may have lost them.
#[derive(Clone, Copy)]
struct Tenure {
    now: u64,
    /// The last one that began with it unsure whether it lost them.
    unsure: u64,
}

impl Tenure {
    /// The tenures once one begins.
    fn next(self, unsure: bool) -> Tenure
        requires { (let tenure = self in tenure.now) < 2 ^ 64 - 1 }
        ensures { result ≡ next_tenure unsure self }
    {
        let now = self.now + 1;
        Tenure {
            now,
            unsure: if unsure { now } else { self.unsure },
        }
    }
}

/// Whose each Alloc-ID is. After `begin` it takes no memory.
#[derive(Drop)]
pub(crate) struct Owners {
    places: Vec<Place>,
    tenures: [Tenure; ONU_PLACES],
}

impl Model for Owners {
    ghost use Rattle.std.specs.Prelude.{List};
    ghost use Rattle.std.specs.Coded.{coded_list};
    ghost use Rattle.hear_rules.specs.Known.{Owner};
    ghost use Rattle.hear_state.specs.Owners.{ArePast, owner_code, owners_of};

    ghost Value = { List Owner };

    ghost coded = { coded_list owner_code };

    ghost view = { λ o. owners_of o.tenures o.places.items };

    ghost invariant = { λ o. ArePast o.tenures o.places.items };
}

/// Whose an Alloc-ID is that an ONU-ID with these tenures had last, in this one.
fn left_to(now: Tenure, onu: u8, tenure: u64) -> Owner
    ensures { owner_of result ≡ left_in now onu tenure }
{
    if tenure < now.unsure {
        Owner::Unclear
    } else {
        Owner::Free {
            last: Fact::Is(onu),
        }
    }
}

/// Whose the Alloc-ID of a place is.
fn owner_at(tenures: &[Tenure; ONU_PLACES], place: Place) -> Owner
    ensures { owner_of result ≡ owner_in tenures.now place }
{
    match place {
        Place::Unclear => Owner::Unclear,
        Place::Never => Owner::Free {
            last: Fact::Nothing,
        },
        Place::Given { onu, tenure, last } => {
            let now = tenures[usize::from(onu)];
            if now.now == tenure {
                Owner::Has { onu, last }
            } else {
                left_to(now, onu, tenure)
            }
        }
        Place::Back { onu, tenure } => left_to(tenures[usize::from(onu)], onu, tenure),
    }
}

/// A place of an ONU-ID whose tenures begin anew.
fn settled_as(now: Tenure, onu: u8, unsure: bool, tenure: u64) -> Place
    ensures { result ≡ settled_in now onu unsure tenure }
{
    if unsure || tenure < now.unsure {
        Place::Unclear
    } else {
        Place::Back { onu, tenure: 0 }
    }
}

/// A place where the tenures of an ONU-ID begin anew.
fn settle(place: Place, now: Tenure, onu: u8, unsure: bool) -> Place
    ensures { result ≡ settled now onu unsure place }
{
    match place {
        Place::Given {
            onu: other,
            tenure,
            ..
        } if other == onu => settled_as(now, onu, unsure, tenure),
        Place::Back { onu: other, tenure } if other == onu => settled_as(now, onu, unsure, tenure),
        Place::Unclear | Place::Never | Place::Given { .. } | Place::Back { .. } => place,
    }
}

/// Each place where the tenures of an ONU-ID begin anew.
fn settle_each(places: &mut [Place], now: Tenure, onu: u8, unsure: bool)
    ensures { places.new ≡ list_map (settled now onu unsure) places.old }
{
    for place in places.iter_mut() {
        *place = settle(*place, now, onu, unsure);
    }
}

/// A place once each ONU-ID lost its Alloc-IDs.
fn lose_place(place: Place) -> Place
    ensures { result ≡ lost_place place }
{
    match place {
        Place::Given { onu, tenure, .. } => Place::Back { onu, tenure },
        Place::Unclear | Place::Never | Place::Back { .. } => place,
    }
}

/// Each place once each ONU-ID lost its Alloc-IDs.
fn lose_each(places: &mut [Place])
    ensures { places.new ≡ list_map lost_place places.old }
{
    for place in places.iter_mut() {
        *place = lose_place(*place);
    }
}

/// A place for each Alloc-ID, each as this one.
fn all_places(alloc: Global, place: Place) -> Result<Vec<Place>, AllocError>
    ensures { IfOk result (λ places. places.items ≡ replicate 4096 place) }
{
    Ok(vec![in alloc; place; ALLOC_PLACES]?)
}

impl Owners {
    /// Each is nobody's, from the first message on. Fails only where there is no memory.
    pub(crate) fn begin_whole(alloc: Global) -> Result<Owners, AllocError>
        ensures { IfOk result (λ owners. owners ≡ replicate 4096 (Free Nothing)) }
    {
        Ok(Owners {
            places: all_places(alloc, Place::Never)?,
            tenures: [Tenure { now: 0, unsure: 0 }; ONU_PLACES],
        })
    }

    /// It isn't known whose each is. Fails only where there is no memory.
    pub(crate) fn begin_midway(alloc: Global) -> Result<Owners, AllocError>
        ensures { IfOk result (λ owners. owners ≡ replicate 4096 Unclear) }
    {
        Ok(Owners {
            places: all_places(alloc, Place::Unclear)?,
            tenures: [Tenure { now: 0, unsure: 0 }; ONU_PLACES],
        })
    }

    /// Gives whose an Alloc-ID is.
    pub(crate) fn owner(&self, alloc: u16) -> Owner
        requires { alloc ≤ last_alloc_id }
        ensures { owner_of result ≡ slice_index_or self.now alloc Unclear }
    {
        owner_at(&self.tenures, self.places.as_slice()[usize::from(alloc)])
    }

    /// Notes that an Alloc-ID is given to an ONU-ID.
    pub(crate) fn give(&mut self, alloc: u16, onu: u8)
        requires { alloc ≤ last_alloc_id }
        ensures { self.new ≡ set self.old alloc (owner_given (slice_index_or self.old alloc Unclear) onu) }
    {
        let last = self.owner(alloc).before(onu);
        let tenure = self.tenures[usize::from(onu)].now;
        self.places[usize::from(alloc)] = Place::Given { onu, tenure, last };
    }

    /// Notes that an Alloc-ID is taken back from an ONU-ID.
    pub(crate) fn take_back(&mut self, alloc: u16, onu: u8)
        requires { alloc ≤ last_alloc_id }
        ensures { self.new ≡ set self.old alloc (owner_back (slice_index_or self.old alloc Unclear) onu) }
    {
        let tenure = self.tenures[usize::from(onu)].now;
        if let Owner::Has { onu: other, .. } = self.owner(alloc)
            && other == onu
        {
            self.places[usize::from(alloc)] = Place::Back { onu, tenure };
        }
    }

    /// Notes that it isn't known whose an Alloc-ID is.
    pub(crate) fn lose_sight(&mut self, alloc: u16)
        requires { alloc ≤ last_alloc_id }
        ensures { self.new ≡ set self.old alloc Unclear }
    {
        self.places[usize::from(alloc)] = Place::Unclear;
    }

    /// Begins a tenure of an ONU-ID. No place is looked at, but once in 2^64 times.
    fn end_tenure(&mut self, onu: u8, unsure: bool)
        ensures { self.new ≡ list_map (owner_after (lost_only onu (lost_if unsure))) self.old }
    {
        let at = usize::from(onu);
        let tenure = self.tenures[at];
        if tenure.now < u64::MAX {
            self.tenures[at] = tenure.next(unsure);
        } else {
            settle_each(&mut self.places, tenure, onu, unsure);
            self.tenures[at] = Tenure { now: 0, unsure: 0 };
        }
    }

    /// Notes that an ONU-ID loses its Alloc-IDs, if it does.
    pub(crate) fn lose(&mut self, onu: u8, lost: Sure)
        ensures { self.new ≡ list_map (owner_after (lost_only onu (sure_of lost))) self.old }
    {
        match lost {
            Sure::Yes => self.end_tenure(onu, false),
            Sure::Unsure => self.end_tenure(onu, true),
            Sure::No => {}
        }
    }

    /// Notes that each ONU-ID loses its Alloc-IDs.
    pub(crate) fn lose_all(&mut self)
        ensures { self.new ≡ list_map (owner_after (λ onu. Yes)) self.old }
    {
        lose_each(&mut self.places);
    }
}
