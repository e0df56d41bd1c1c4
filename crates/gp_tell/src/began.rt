//! What a teller began with, which stands in contracts alone: the writer below, and what the first line is told by.
use std::marker::Brand;

/// What a teller began with: what the writer below it held, and what the first line is told by. It stands in contracts
/// alone, and each call of a function over it picks it.
pub trait Began {
    ghost use Rattle.std.specs.Prelude.{ℕ, List, Option};
    ghost use Rattle.gp_explain.specs.Telling.{Manner};

    ghost held: { Option (List ℕ) };

    ghost manner: { Manner };
}

impl Began for Brand {
    ghost use Rattle.std.specs.Prelude.{None, false};
    ghost use Rattle.gp_ploam.specs.declared.check.Mask.TheVariants as masks;
    ghost use Rattle.gp_explain.specs.declared.form.Form.TheVariants as forms;
    ghost use Rattle.gp_explain.specs.Telling.{no_frames};

    ghost held = { None };

    ghost manner = { record { mask = masks.Plain; form = forms.Plain; timed = false; frames = no_frames } };
}
