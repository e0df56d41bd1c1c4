//! Second pools with the same numbers out and cooling, for an image of a port. The leases stay those of the first.
ghost use Rattle.std.specs.Prelude.{◌≡◌};
ghost use Rattle.std.specs.FinMap as map;

use super::alloc_ids::AllocIds;
use super::onu_ids::OnuIds;

impl OnuIds {
    /// Makes a second pool with the same ONU-IDs out and cooling. The leases stay those of the first: of the second,
    /// only settled numbers may be leased again.
    pub fn copy(&self) -> OnuIds
        ensures { result ≡ self.now }
    {
        OnuIds {
            pool: self.pool.copy(),
            cooling: self.cooling.copy(),
        }
    }

    /// Tells for how many frames more the ONU-ID cools; None where it doesn't.
    pub fn frames_left(&self, number: u8) -> Option<u16>
        ensures { result ≡ map.get self.now.quarantine.cooling number }
    {
        self.cooling.frames_left(number)
    }
}

impl AllocIds {
    /// Makes a second pool with the same Alloc-IDs out. The leases stay those of the first: of the second, only settled
    /// numbers may be leased again.
    pub fn copy(&self) -> AllocIds
        ensures { result ≡ self.now }
    {
        AllocIds {
            pool: self.pool.copy(),
        }
    }
}
