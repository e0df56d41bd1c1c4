//! That contracts by what is known compose along a run.
ghost use Rattle.hear_state.specs.Laws.{SameIsJudgedSame, SameStaysSame, SameStaysSameInRuns};

/// States that where the same is known it stays so, whatever is heard, and the same is judged.
pub fn same_is_judged_same()
    ensures stays { SameStaysSame }
    ensures runs { SameStaysSameInRuns }
    ensures judged { SameIsJudgedSame }
{}
