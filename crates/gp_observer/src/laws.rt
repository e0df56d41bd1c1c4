//! What is true of each run of the machine, to an observer of its messages.
ghost use Rattle.gp_observer.specs.Fibre.{EveryRunIsHeard, SentCodesAreHeard, TerminalBreaksNoRule, TerminalBreaksNoRuleMidway};
ghost use Rattle.gp_observer.specs.Judged.{BrokenAreJudged};
ghost use Rattle.gp_observer.specs.Knows.{ObserversKnowUnits};
ghost use Rattle.gp_observer.specs.Sent.{MessagesNameAdmitted, SentTellUnits, UnitsTellAll};
ghost use Rattle.gp_observer.specs.Watch.{SameMessagesAreEqual};
ghost use Rattle.gp_observer.specs.Watches.{WatchersKnowUnits, WatchersKnowUnitsMidway};

use gp_machine::one_outcome;

/// States that the messages that the steps of a run owe tell all of the unit table that they are about, and
/// that none of them names a serial number that isn't admitted.
pub fn messages_tell_units()
    ensures units { ObserversKnowUnits }
    ensures exactly { UnitsTellAll }
    ensures admitted { MessagesNameAdmitted }
{}

/// States the same of what is sent, each message three times.
pub fn copies_tell_units()
    ensures { SentTellUnits }
{}

/// States that two copies are of one message, to an observer, exactly where they are equal.
pub fn same_messages_are_equal()
    ensures { SameMessagesAreEqual }
{}

/// States that an observer of the fibre, with room for so much only (`specs/Watch.antt`), knows the units too, once
/// what is owed is heard: all of them, where it follows all serial numbers that it heard; and one that begins in the
/// middle those of which it judges.
pub fn watchers_know_units()
    ensures whole { WatchersKnowUnits }
    ensures midway { WatchersKnowUnitsMidway }
{
    one_outcome();
}

/// States that in no run from an opening, whatever bursts come, the terminal breaks a rule, also to an observer
/// that begins in the middle.
pub fn terminal_breaks_no_rule()
    ensures heard { EveryRunIsHeard }
    ensures none { TerminalBreaksNoRule }
    ensures midway { TerminalBreaksNoRuleMidway }
{
    one_outcome();
}

/// States that the codes that a run sends are heard as its messages: none is garbled.
pub fn sent_codes_are_heard()
    ensures { SentCodesAreHeard }
{}

/// States that a rule that is broken was judged (`specs/Judged.antt`): where none was judged, none is broken.
pub fn broken_are_judged()
    ensures { BrokenAreJudged }
{}
