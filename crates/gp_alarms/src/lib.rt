//! The alarms of one unit (G.984.3, clause 11), and the counts that lead to them.
//!
//! Promise: the counts after a poll window, and the alarm that they lead to (`close_poll`).
//!
//! - `alarm.rt`: `Alarm`, `AlarmKind` and the printed names; `specs/Alarm.antt` has the names.
//! - `poll.rt`: `PollCounts`, `Outcome`, `close_poll` and the three limits. `specs/Poll.antt` has the rule, one small
//!   function for each count, and which alarm the counts give. The code goes by outcome and the definition by count,
//!   so that one checks the other.
#![tactic(auto)]

mod alarm;
mod poll;

pub use alarm::{Alarm, AlarmKind};
pub use poll::{Outcome, PollCounts, close_poll};
