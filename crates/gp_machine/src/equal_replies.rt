//! The law that `==` of rows and of replies tells whether they are equal.
ghost use Rattle.gp_machine.specs.ComparingAnswers.{ComparesReplies, ComparesRows};

/// `==` of two rows, and of two replies, tells whether they are equal.
pub fn compares_replies()
    ensures rows { ComparesRows }
    ensures replies { ComparesReplies }
{}
