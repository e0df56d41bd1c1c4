//! Laws of poll windows: what is counted of them along a run, and that LOS, LOAM and LOA are raised after those that
//! the counts tell of, and after no others.
ghost use Rattle.gp_laws.specs.Polls.{CountsDarkWindows, CountsGarbledWindows, CountsWaitedWindows, RaisesLosAfterFourDark, RaisesLoamAfterThreeGarbled, RaisesLoaAfterThreeWaited};

/// States what is counted of a unit, in the words of a run: how its last poll windows ended.
pub fn counts_poll_windows()
    ensures dark { CountsDarkWindows }
    ensures garbled { CountsGarbledWindows }
    ensures waited { CountsWaitedWindows }
{}

/// States after which poll windows of a run LOS, LOAM and LOA are raised, and that they are raised after no
/// others.
pub fn alarms_follow_poll_windows()
    ensures los { RaisesLosAfterFourDark }
    ensures loam { RaisesLoamAfterThreeGarbled }
    ensures loa { RaisesLoaAfterThreeWaited }
{}
