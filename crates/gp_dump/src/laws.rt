//! The law that a change that is put goes on with a dump, and so do parts of dumps one behind the other.
ghost use Rattle.std.specs.Prelude.{◌≡◌, ◌++◌, ℕ, List, Option, Some, true};
ghost use Rattle.gp_dump.specs.declared.change.Change.{Change as AnyChange};
ghost use Rattle.gp_dump.specs.Dump.{Continues, is_declared, time_behind, time_text};
ghost use Rattle.gp_dump.specs.Text.{change_text};

/// States that a change of a variable that is declared goes on with a dump, wherever its time is, and that so do parts
/// one behind the other.
pub fn dumps_continue()
    ensures put { (ports : List (Option ℕ)) (last : Option ℕ) (time : ℕ) (change : AnyChange)
        → is_declared ports change ≡ true
        → Continues ports last (time_text last time ++ change_text change) (Some (time_behind last time)) }
    ensures more { (ports : List (Option ℕ)) (from mid to : Option ℕ) (first rest : List ℕ)
        → Continues ports from first mid → Continues ports mid rest to → Continues ports from (first ++ rest) to }
{}
