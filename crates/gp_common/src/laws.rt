//! Laws of the decision table, as functions that do nothing: each decision has its reason, and an acquisition opens all
//! its search windows.
ghost use Rattle.gp_common.specs.Laws.{EachDecisionHasItsReason, OpensEachSearchWindow};

/// States that each decision has its reason: it polls only the unit whose turn it is, and only in Standby with
/// nothing else to do; it ranges only a ranging unit, and only where no search window is left to
/// open; it searches only while search windows are left; it does nothing only where there is nothing
/// to do.
pub fn each_decision_has_its_reason()
    ensures { EachDecisionHasItsReason }
{}

/// States that an acquisition with a number of search windows left opens that many with its next decisions, whatever
/// the units do meanwhile, and then no more.
pub fn opens_each_search_window()
    ensures { OpensEachSearchWindow }
{}
