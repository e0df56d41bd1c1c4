//! What a counting writer began with, which stands in contracts alone.
use std::marker::Brand;

/// What a counting writer began with: what the writer below it held, the mask of the codes, and how many ports are
/// counted. It stands in contracts alone, and each call of a function over it picks it.
pub trait Began {
    ghost use Rattle.std.specs.Prelude.{ℕ, List, Option};
    ghost use Rattle.gp_ploam.specs.declared.check.Mask.{Mask};

    ghost held: { Option (List ℕ) };

    ghost mask: { Mask };

    ghost ports: { ℕ };
}

impl Began for Brand {
    ghost use Rattle.std.specs.Prelude.{None};
    ghost use Rattle.gp_ploam.specs.declared.check.Mask.TheVariants as masks;

    ghost held = { None };

    ghost mask = { masks.Plain };

    ghost ports = { 0 };
}
