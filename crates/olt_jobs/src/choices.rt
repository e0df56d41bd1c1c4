//! Numbers that the seed decides: a job with the same seed makes the same inputs on every run.
ghost use Rattle.std.specs.Prelude.{◌<◌, ◌≤◌};

/// Numbers that a seed decides, by the generator SplitMix64 (Steele, Lea and Flood).
#[derive(Clone, Copy, Drop)]
pub(crate) struct Choices {
    state: u64,
}

impl Choices {
    /// Begins the choices of one part of a job.
    pub(crate) fn new(seed: u32, part: u32) -> Choices {
        let seed = u64::from(seed).wrapping_mul(0x1_0000_0001);
        let part = u64::from(part).wrapping_mul(0xd1b5_4a32_d192_ed03);
        Choices {
            state: seed.wrapping_add(part),
        }
    }

    /// Gives the next number, of 64 bits.
    pub(crate) fn number(&mut self) -> u64 {
        self.state = self.state.wrapping_add(0x9e37_79b9_7f4a_7c15);
        let mixed = self.state;
        let mixed = (mixed ^ (mixed >> 30)).wrapping_mul(0xbf58_476d_1ce4_e5b9);
        let mixed = (mixed ^ (mixed >> 27)).wrapping_mul(0x94d0_49bb_1331_11eb);
        mixed ^ (mixed >> 31)
    }

    /// Gives the next number below a bound, or 0 where the bound is 0.
    pub(crate) fn below(&mut self, bound: u32) -> u32
        ensures within { result ≤ bound }
        ensures below { 0 < bound → result < bound }
    {
        if bound == 0 {
            return 0;
        }
        (self.number() % u64::from(bound)) as u32
    }

    /// Gives the next number from one bound to the other.
    pub(crate) fn between(&mut self, least: u32, most: u32) -> u32 {
        let numbers = most.saturating_sub(least).saturating_add(1);
        least.saturating_add(self.below(numbers))
    }

    /// Tells whether something happens that happens once in so many times.
    pub(crate) fn is_once_in(&mut self, times: u32) -> bool {
        self.below(times) == 0
    }
}
