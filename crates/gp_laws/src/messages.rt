//! Laws of messages: what the steps of a run owe is sent in order, each message three times, and each has a code.
ghost use Rattle.gp_laws.specs.Messages.{EveryRunHasOwedMessages, SendsEachThreeTimes, SendsWhatWasOwedFirst, SendsFirstOwed, SendsAllOwed, SendsOnlyProperMessages};

/// States that the copies sent along a run, and after them those still owed, are the messages that its
/// steps owe, in order, each three times; the copies that were owed at its start come first.
pub fn sends_each_message_three_times()
    ensures opening { SendsEachThreeTimes }
    ensures any_start { SendsWhatWasOwedFirst }
    ensures owes { EveryRunHasOwedMessages }
{}

/// States that every message that is sent or owed along a run from an opening is proper, so that it has a
/// code.
pub fn sends_only_proper_messages()
    ensures { SendsOnlyProperMessages }
{}

/// States that the frames of a run send the copies that were owed at its start, one each and in order, and
/// that what its steps owe, those frames included, comes behind them.
pub fn sends_first_owed()
    ensures first { SendsFirstOwed }
    ensures all { SendsAllOwed }
{}
