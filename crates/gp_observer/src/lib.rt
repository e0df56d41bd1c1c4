//! What an observer of the messages on a port's fibre knows of its units, and which rules a message breaks by what is
//! known before it (G.984.3, clauses 9 and 10; what is judged is this profile's own rule): definitions that compute,
//! and laws of them. Nothing runs here; `gp_watch` keeps what is known.
//!
//! Promise: along each run of the machine the messages tell the unit table, and the terminal breaks no rule, whatever
//! bursts come (`messages_tell_units`, `watchers_know_units`, `terminal_breaks_no_rule`, `sent_codes_are_heard`), and
//! a rule that is broken was judged (`broken_are_judged`).
//!
//! - `rule.rt`: `Rule`, a rule that may be broken. `laws.rt`: the laws.
//! - `specs/Observer.antt`: what the messages tell: holders, disabled serial numbers, Alloc-IDs, delays.
//!   `specs/Watch.antt`: what is kept besides, for as many serial numbers and delays as there is room for, and what
//!   each message changes of it.
//! - `specs/Rules.antt`, `UnitRules.antt`: each rule of the terminal and of a unit. `specs/Heard.antt`: which rules
//!   are broken by what is heard, in their order, and what is known after it. `specs/Judged.antt`: of what each rule
//!   is judged.
//! - `specs/Knows.antt`, `Sent.antt`, `Watches.antt`: what it is to know the units, and the laws that say so.
//!   `specs/Fibre.antt`: what a run says on the fibre, and the law that no rule is broken in it.
//!
//! Where to make which change: what a message changes stands in `specs/Observer.antt` or `Watch.antt`, and a rule in
//! the file of its side; a new one has its name in `rule.rt`, its place in `specs/Heard.antt`, of what it is judged in
//! `specs/Judged.antt`, and its lemmas in `proofs/Judging.antt` and `Judged.antt`. `proofs/Cases.antt` has worked
//! cases of each. A changed table line of `gp_machine` is met in `proofs/Telling.antt` (what its messages tell),
//! `Causing.antt` (by what they are caused), and their twins of frames; a new message in `proofs/Agreeing.antt`,
//! `Low.antt` and `Noting.antt` too.
#![tactic(auto)]

mod laws;
mod rule;

pub use laws::{
    broken_are_judged, copies_tell_units, messages_tell_units, same_messages_are_equal,
    sent_codes_are_heard, terminal_breaks_no_rule, watchers_know_units,
};
pub use rule::Rule;
