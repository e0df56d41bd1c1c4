//! How many simulated units there may be, and how late each may answer; the law that contracts have the same numbers.
ghost use Rattle.std.specs.Prelude.{◌≡◌};
ghost use Rattle.gp_onu.specs.Limits.{frame_bit_times, max_delay, max_random_delay, max_simulated_units};

/// How many bit times a frame of 125 microseconds has upstream, at 1.24416 Gbit/s (G.984.3, clause 8).
pub const FRAME_BIT_TIMES: u32 = 155_520;

/// The longest whole round-trip delay of a simulated unit, in bit times: four frames (this profile's own rule).
pub const MAX_DELAY: u32 = 622_080;

/// The greatest random delay of a simulated unit, in units of 32 bytes: twelve bits (G.984.3, clause 9).
pub const MAX_RANDOM_DELAY: u16 = 4095;

/// The most simulated units on one fibre (this profile's own rule).
pub const MAX_SIMULATED_UNITS: u16 = 1024;

/// States that the constants are the numbers that contracts have for them.
pub fn units_are_limited()
    ensures frame { FRAME_BIT_TIMES ≡ frame_bit_times }
    ensures delay { MAX_DELAY ≡ max_delay }
    ensures random_delay { MAX_RANDOM_DELAY ≡ max_random_delay }
    ensures units { MAX_SIMULATED_UNITS ≡ max_simulated_units }
{}
