//! The totals of a storm as an object.
use crate::fields::{Plain, are_lines};
use gp_replay::RunFault;
use gp_storm::{TotalsForm, run_storm_in};
use gp_stream::{Sink, Source};
use std::alloc::{AllocError, Global};
use std::sync::Wait;
use std::thread::Threads;

/// A port that has its frames, bursts and commands beside another's.
const TWO_PORTS: &str = r#"
licences = 3
port = [{}, {admit = ["ABCD00000001"]}]
event = [
    {port = 0, command = "search"},
    {port = 1, frames = 300},
    {port = 0, at = 0, say = "none", onu = 0},
    {port = 1, command = "search"},
    {port = 0, frames = 40},
    {port = 1, at = 7, say = "serial", serial = "ABCD00000001"},
    {port = 0, at = 0, say = "none", onu = 1},
    {port = 1, frames = 2},
]
"#;

/// How a storm ends, and what it writes.
type Storm = (Result<(), RunFault>, Vec<u8>);

/// How a storm ends, and what it writes in this form.
fn storm_of<R: Threads + Wait + Sync>(
    rt: &R,
    alloc: Global,
    form: TotalsForm,
    script: &str,
) -> Result<Storm, AllocError> {
    let mut source = Source::new(script.as_bytes());
    let mut sink = Sink::new(alloc, Vec::new(alloc))?;
    let outcome = run_storm_in(rt, alloc, form, &mut source, &mut sink);
    Ok((outcome, sink.into_inner()))
}

const OBJECT: [&'static [Plain]; 1] = [&[
    Plain::Number("frames", 342),
    Plain::Number("bursts", 3),
    Plain::Number("commands", 2),
    Plain::Number("entries", 347),
    Plain::Number("licences", 3),
]];

const LINES: &[u8] = b"frames 342\nbursts 3\ncommands 2\nentries 347\nlicences 3\n";

/// Tells whether the totals of both ports are this object.
fn is_object<R: Threads + Wait + Sync>(rt: &R, alloc: Global) -> Result<bool, AllocError> {
    let (outcome, told) = storm_of(rt, alloc, TotalsForm::Object, TWO_PORTS)?;
    Ok(outcome == Ok(()) && are_lines(alloc, &told, &OBJECT)?)
}

/// Tells whether they are these lines.
fn are_totals<R: Threads + Wait + Sync>(rt: &R, alloc: Global) -> Result<bool, AllocError> {
    let (outcome, told) = storm_of(rt, alloc, TotalsForm::Lines, TWO_PORTS)?;
    Ok(outcome == Ok(()) && told.as_slice() == LINES)
}

#[test]
fn totals(rt: HostRuntime) {
    assert!(rt; is_object(&rt, rt.alloc()) == Ok(true));
    assert!(rt; are_totals(&rt, rt.alloc()) == Ok(true));
}

/// Tells whether a script without a port has no totals.
fn has_none<R: Threads + Wait + Sync>(rt: &R, alloc: Global) -> Result<bool, AllocError> {
    let (outcome, told) = storm_of(rt, alloc, TotalsForm::Object, "licences = 1")?;
    Ok(outcome.is_err() && told.is_empty())
}

/// Of a script that is wrong there is no object.
#[test]
fn no_totals(rt: HostRuntime) {
    assert!(rt; has_none(&rt, rt.alloc()) == Ok(true));
}
