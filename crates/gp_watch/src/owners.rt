//! Which ONU-ID each Alloc-ID belongs to.
ghost use Rattle.std.specs.Prelude.{◌≡◌, ℕ, ◌<◌, ◌≤◌, ◌==◌, not, IfOk, None, Some, map as list_map};
ghost use Rattle.std.specs.FinMap as map;
ghost use Rattle.gp_pools.specs.Limits.{last_alloc_id};
ghost use Rattle.gp_observer.specs.Observer.{some_passes};
ghost use Rattle.gp_watch.specs.Owners.{left_at, owner_at};

use std::alloc::{AllocError, Global};
use std::marker::Model;

/// A place for each ONU-ID.
const ONU_PLACES: usize = 256;

/// A place for each Alloc-ID of twelve bits.
const ALLOC_PLACES: usize = 4096;

/// Whom an Alloc-ID was given to.
#[derive(Clone, Copy)]
struct Owner {
    onu: u8,
    /// The age of the ONU-ID then.
    age: u32,
}

/// Which ONU-ID each Alloc-ID belongs to. After `begin` it takes no memory.
#[derive(Drop)]
pub(crate) struct Owners {
    places: Vec<Option<Owner>>,
    /// How often each ONU-ID was given up.
    ages: [u32; ONU_PLACES],
}

impl Model for Owners {
    ghost use Rattle.std.specs.Prelude.{ℕ};
    ghost use Rattle.std.specs.Coded.{coded_ℕ};
    ghost use Rattle.std.specs.Ordering.{nat_cmp};
    ghost use Rattle.std.specs.FinMap as map;
    ghost use Rattle.gp_watch.specs.Owners.{owners_of, ArePast};

    ghost Value = { map.FinMap nat_cmp ℕ };

    ghost coded = { map.code coded_ℕ coded_ℕ };

    ghost view = { λ o. owners_of o.ages o.places.items };

    ghost invariant = { λ o. ArePast o.ages o.places.items };
}

/// Whom what stands at a place belongs to.
fn owner_in(ages: &[u32; ONU_PLACES], place: Option<Owner>) -> Option<u8>
    ensures { result ≡ owner_at ages.now place }
{
    match place {
        Some(owner) if ages[usize::from(owner.onu)] == owner.age => Some(owner.onu),
        _ => None,
    }
}

/// What stays at a place once this ONU-ID is given up.
fn left_in(place: Option<Owner>, onu: u8) -> Option<Owner>
    ensures { result ≡ left_at onu place }
{
    match place {
        Some(owner) if owner.onu == onu => None,
        _ => place,
    }
}

/// Takes this ONU-ID out of each place.
fn forget(places: &mut [Option<Owner>], onu: u8)
    ensures { places.new ≡ list_map (left_at onu) places.old }
{
    for place in places.iter_mut() {
        *place = left_in(*place, onu);
    }
}

impl Owners {
    /// No Alloc-ID belongs to any. Fails only where there is no memory.
    pub(crate) fn begin(alloc: Global) -> Result<Owners, AllocError>
        ensures { IfOk result (λ owners. owners ≡ map.empty) }
    {
        let places = vec![in alloc; None; ALLOC_PLACES]?;
        Ok(Owners {
            places,
            ages: [0; ONU_PLACES],
        })
    }

    /// Gives the ONU-ID that an Alloc-ID belongs to.
    pub(crate) fn owner(&self, alloc: u16) -> Option<u8>
        ensures { result ≡ map.get self.now alloc }
    {
        let places = self.places.as_slice();
        let place = usize::from(alloc);
        if place >= places.len() {
            return None;
        }
        owner_in(&self.ages, places[place])
    }

    /// Notes that an Alloc-ID belongs to an ONU-ID.
    pub(crate) fn give(&mut self, alloc: u16, onu: u8)
        requires { alloc ≤ last_alloc_id }
        ensures { self.new ≡ map.insert self.old alloc onu }
    {
        let age = self.ages[usize::from(onu)];
        self.places[usize::from(alloc)] = Some(Owner { onu, age });
    }

    /// Notes that an Alloc-ID belongs to none.
    pub(crate) fn take(&mut self, alloc: u16)
        requires { alloc ≤ last_alloc_id }
        ensures { self.new ≡ map.remove self.old alloc }
    {
        self.places[usize::from(alloc)] = None;
    }

    /// Notes that an ONU-ID is given up, with its Alloc-IDs. None of them is looked at, but once in 2^32 times.
    pub(crate) fn give_up(&mut self, onu: u8)
        ensures { self.new ≡ map.retain_keys self.old
            (λ alloc. not (some_passes (λ other. other == onu) (map.get self.old alloc))) }
    {
        let place = usize::from(onu);
        let age = self.ages[place];
        if age < u32::MAX {
            self.ages[place] = age + 1;
        } else {
            forget(&mut self.places, onu);
        }
    }

    /// States that each is an ONU-ID of one octet.
    pub(crate) fn are_low(&self)
        ensures { (alloc onu : ℕ) → map.get self.now alloc ≡ Some onu → onu < 256 }
    {
        let _places = self.places.len();
    }
}
