//! What a verification that is counted began with, which stands in contracts alone.
use std::marker::Brand;

/// What a verification that is counted began with: the play before the first line, the mask of the codes, and how many
/// ports are counted. It stands in contracts alone, and each call of a function over it picks it.
pub trait Opening {
    ghost use Rattle.std.specs.Prelude.{ℕ};
    ghost use Rattle.gp_ploam.specs.declared.check.Mask.{Mask};
    ghost use Rattle.gp_replay.specs.Chassis.{PlayState};

    ghost start: { PlayState };

    ghost mask: { Mask };

    ghost ports: { ℕ };
}

impl Opening for Brand {
    ghost use Rattle.std.specs.Prelude.{[]};
    ghost use Rattle.gp_ploam.specs.declared.check.Mask.TheVariants as masks;
    ghost use Rattle.gp_replay.specs.Chassis.{opened_play};

    ghost start = { opened_play [] 0 };

    ghost mask = { masks.Plain };

    ghost ports = { 0 };
}
