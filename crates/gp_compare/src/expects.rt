//! What a comparer is to be handed.
use std::marker::Brand;

/// What a comparer is to be handed, where that is known. It stands in contracts alone, and each call of a function over
/// it picks it.
pub trait Expects {
    ghost use Rattle.std.specs.Prelude.{ℕ, List, Option};

    ghost expected: { Option (List ℕ) };
}

impl Expects for Brand {
    ghost use Rattle.std.specs.Prelude.{None};

    ghost expected = { None };
}
