//! The text of a script.
use gp_generate::{GenerateFault, Plan, Wish, generate};
use gp_stream::Sink;
use std::alloc::Global;
use std::io::Write;

/// A script of two ports and so many events.
pub(crate) fn of_ports(seed: u64, events: u64) -> Wish {
    Wish {
        seed,
        ports: 2,
        units: 0,
        events,
        mistakes: 0,
    }
}

/// A world of so many units and events.
pub(crate) fn of_units(seed: u64, units: u64, events: u64) -> Wish {
    Wish {
        seed,
        ports: 1,
        units,
        events,
        mistakes: 0,
    }
}

/// Tells how writing a script ends, and gives the writer back; None where there is no such script, or no memory.
pub(crate) fn made_to<W: Write + Drop>(
    alloc: Global,
    wish: Wish,
    writer: W,
) -> Option<(Result<(), GenerateFault>, W)> {
    let plan = Plan::new(wish).ok()?;
    let mut sink = Sink::new(alloc, writer).ok()?;
    let outcome = generate(alloc, &plan, &mut sink);
    Some((outcome, sink.into_inner()))
}

/// Gives the text of a script.
pub(crate) fn made(alloc: Global, wish: Wish) -> Option<Vec<u8>> {
    let (outcome, text) = made_to(alloc, wish, Vec::new(alloc))?;
    outcome.ok()?;
    Some(text)
}
