//! Scripts of folders are played beside what they have to write, several at once, and what became of each is told: a
//! line for each that failed, or an object for each, and the sum; also as JUnit's XML.
ghost use Rattle.std.specs.Prelude.{◌≡◌, ◌⊎◌, IfErr, if◌then◌else◌, map};
ghost use Rattle.std.specs.List.{list_any};
ghost use Rattle.gp_report.specs.declared.status.TheConstants.{OUT_OF_MEMORY};
ghost use Rattle.oltctl.specs.Statuses.{IsTested, IsToldTest};
ghost use Rattle.oltctl.specs.Tested.{has_failed_in, outcome_in};

use crate::judging::outcome_of;
use crate::replacing::write_over;
use crate::reporting::{cause_text, report};
use crate::scripts::{Slot, list_folder};
use gp_command_line::Testing;
use gp_outcome::{
    Outcome, Tally, Verdict, push_suite, push_suites_begin, push_suites_end, verdict_line,
    verdict_object,
};
use gp_report::{NOT_WRITTEN, SUCCESS, TEST_FAILED, memory_report, write_report};
use gp_stream::{Sink, WriteStopped};
use std::alloc::{AllocError, Global};
use std::io::Write;
use std::rt::Files;
use std::sync::{Mutex, Wait};
use std::thread::Threads;
use std::{io, thread};

/// Why what became of scripts was not told to its end.
enum TestFault {
    OutOfMemory,
    Write,
}

impl From<AllocError> for TestFault {
    fn from(_error: AllocError) -> TestFault {
        TestFault::OutOfMemory
    }
}

impl From<WriteStopped> for TestFault {
    fn from(_error: WriteStopped) -> TestFault {
        TestFault::Write
    }
}

/// Takes the place of the script that is judged next.
fn take_place<R: Wait>(rt: &R, next: &Mutex<usize>) -> usize {
    let mut next = next.lock(rt);
    let place = *next;
    *next = place.saturating_add(1);
    place
}

/// Judges one script after another, as long as there are any that nobody took, and gives what became of them.
fn judge_some<R: Wait>(
    rt: &R,
    host: &HostRuntime,
    next: &Mutex<usize>,
    slots: &[Slot],
    bless: bool,
) -> Vec<(usize, Outcome)> {
    let mut outcomes = Vec::new(host.alloc());
    for _ in 0..slots.len() {
        let place = take_place(rt, next);
        let Some(slot) = slots.get(place) else {
            break;
        };
        if let Some(case) = &slot.case {
            let outcome = outcome_of(host, slot.verdict.folder.as_str(), case, bless);
            let _ = outcomes.push((place, outcome));
        }
    }
    outcomes
}

/// Writes down what became of scripts.
fn settle(slots: &mut [Slot], outcomes: Vec<(usize, Outcome)>) {
    for (place, outcome) in outcomes {
        if let Some(slot) = slots.get_mut(place) {
            slot.verdict.outcome = outcome;
        }
    }
}

/// Judges scripts, so many at once. The threads open files by `host`, since a generic runtime's files are known in its
/// own thread alone.
fn judge_all<R: Threads + Wait + Sync>(
    rt: &R,
    host: &HostRuntime,
    slots: &mut [Slot],
    jobs: usize,
    bless: bool,
) -> Result<(), AllocError> {
    let next = Mutex::new(0usize);
    let judged = {
        let slots: &[Slot] = slots;
        let next = &next;
        let work = |_: usize| judge_some(rt, host, next, slots, bless);
        thread::map_indices(rt, host.alloc(), jobs, &work)?
    };
    for outcomes in judged {
        settle(slots, outcomes);
    }
    Ok(())
}

/// How many scripts are judged at once: as many as are wanted, or as there are processors, and no more than there are
/// scripts.
fn jobs_of<R: Threads>(rt: &R, wanted: Option<u64>, scripts: usize) -> usize {
    let count = match wanted {
        Some(count) if count > 0 => usize::try_from(count).unwrap_or(usize::MAX),
        _ => match thread::available_parallelism(rt) {
            Ok(count) => count.get(),
            Err(_) => 1,
        },
    };
    count.min(scripts).max(1)
}

/// Tells what became of a file, where that is wanted.
fn tell_verdict<W: Write>(
    alloc: Global,
    verdict: &Verdict,
    wanted: &Testing<'_, '_>,
    sink: &mut Sink<W>,
) -> Result<(), TestFault> {
    if wanted.json {
        if !wanted.quiet || verdict.outcome.is_failed() {
            sink.put(verdict_object(alloc, verdict)?.as_slice())?;
        }
    } else if let Some(line) = verdict_line(alloc, verdict)? {
        sink.put(line.as_slice())?;
    }
    Ok(())
}

/// Tells what became of all files, and the sum.
fn tell_all<W: Write>(
    alloc: Global,
    slots: &[Slot],
    tally: &Tally,
    wanted: &Testing<'_, '_>,
    sink: &mut Sink<W>,
) -> Result<(), TestFault> {
    for slot in slots {
        tell_verdict(alloc, &slot.verdict, wanted, sink)?;
    }
    if !wanted.quiet {
        let sum = if wanted.json {
            tally.object(alloc)?
        } else {
            tally.line(alloc)?
        };
        sink.put(sum.as_slice())?;
    }
    sink.finish()?;
    Ok(())
}

/// Counts what became of files.
fn tally_of(slots: &[Slot]) -> Tally {
    let mut tally = Tally::new();
    for slot in slots {
        tally.count(&slot.verdict.outcome);
    }
    tally
}

/// Tells whether one failed.
fn has_failed(slots: &[Slot]) -> bool
    ensures { result ≡ list_any has_failed_in slots.now }
{
    slots.iter().any(|slot| slot.verdict.outcome.is_failed())
}

/// Gives what became of the files of each folder as JUnit's XML.
fn junit_of(
    alloc: Global,
    judged: Judged,
    folders: &[&str],
    tally: &Tally,
) -> Result<Vec<u8>, AllocError> {
    let Judged { slots, ends } = judged;
    let mut verdicts = Vec::new(alloc);
    for slot in slots {
        let Slot { verdict, case: _ } = slot;
        verdicts.push(verdict)?;
    }
    let mut out = Vec::new(alloc);
    push_suites_begin(&mut out, tally)?;
    let mut from = 0;
    for (folder, end) in folders.iter().zip(ends.iter()) {
        if let Some(part) = verdicts.get(from..*end) {
            // one that was named before has its verdicts there
            if !part.is_empty() {
                push_suite(alloc, &mut out, folder, part)?;
            }
        }
        from = *end;
    }
    push_suites_end(&mut out)?;
    Ok(out)
}

/// Writes JUnit's XML; where it was not written, it says so, and answers the exit status.
fn write_junit<R: AllocGlobal + Files + Print + Eprint>(
    rt: &R,
    host: &HostRuntime,
    path: &str,
    judged: Judged,
    folders: &[&str],
    tally: &Tally,
) -> Result<(), u8>
    ensures { IfErr result (λ status. (status ≡ OUT_OF_MEMORY) ⊎ (status ≡ NOT_WRITTEN)) }
{
    let Ok(octets) = junit_of(rt.alloc(), judged, folders, tally) else {
        return Err(report(rt, memory_report()));
    };
    match write_over(rt, host, path, octets.as_slice()) {
        Ok(true) => Ok(()),
        Ok(false) => {
            let _ = eprintln!(rt; "oltctl: {path}: has something that is no XML, and stays");
            Err(NOT_WRITTEN)
        }
        Err(error) if error.kind() == io::ErrorKind::OutOfMemory => Err(report(
            rt,
            memory_report(),
        )),
        Err(error) => {
            tell_unwritten(rt, path, &error);
            Err(NOT_WRITTEN)
        }
    }
}

/// Says on standard error why a file was not written.
fn tell_unwritten<R: AllocGlobal + Eprint>(rt: &R, path: &str, error: &io::Error) {
    let _ = match cause_text(rt.alloc(), error) {
        Ok(cause) => eprintln!(rt; "oltctl: {path}: {cause}"),
        Err(AllocError) => eprintln!(rt; "oltctl: {path}: was not written"),
    };
}

/// What became of the files of folders, and behind how many files each folder ends.
#[derive(Drop)]
struct Judged {
    slots: Vec<Slot>,
    ends: Vec<usize>,
}

/// Tells whether a folder is among those that were named before it.
fn is_among(folder: &str, named: &[&str]) -> bool {
    named.iter().any(|other| *other == folder)
}

/// Lists the scripts of folders, each of which counts once, and judges them.
fn judged_in<R: Threads + Wait + Sync>(
    rt: &R,
    host: &HostRuntime,
    wanted: &Testing<'_, '_>,
) -> Result<Judged, AllocError> {
    let mut slots = Vec::new(host.alloc());
    let mut ends = Vec::new(host.alloc());
    for (place, folder) in wanted.folders.iter().enumerate() {
        if !is_among(folder, &wanted.folders[..place]) {
            list_folder(host, folder, &mut slots)?;
        }
        ends.push(slots.len())?;
    }
    let jobs = jobs_of(rt, wanted.jobs, slots.len());
    judge_all(rt, host, slots.as_mut_slice(), jobs, wanted.bless)?;
    Ok(Judged { slots, ends })
}

/// The exit status where all was told.
fn tested_status(has_failed: bool) -> u8
    ensures { result ≡ (if has_failed then TEST_FAILED else SUCCESS) }
{
    if has_failed { TEST_FAILED } else { SUCCESS }
}

/// Says why what became of files was not told to its end, and answers the exit status.
fn end_telling<R: Eprint>(rt: &R, fault: TestFault) -> u8
    ensures { (result ≡ OUT_OF_MEMORY) ⊎ (result ≡ NOT_WRITTEN) }
{
    match fault {
        TestFault::OutOfMemory => report(rt, memory_report()),
        TestFault::Write => report(rt, write_report()),
    }
}

/// Tells what became of files on standard output.
fn tell_output<R: AllocGlobal + Print>(
    rt: &R,
    slots: &[Slot],
    tally: &Tally,
    wanted: &Testing<'_, '_>,
) -> Result<(), TestFault> {
    let mut sink = Sink::new(rt.alloc(), io::writer(rt))?;
    tell_all(rt.alloc(), slots, tally, wanted, &mut sink)
}

/// Tells what became of files, and answers the exit status.
#[tactic(auto, using(crate::proofs::TestedLemmas::any_of))]
fn tell_judged<R: AllocGlobal + Files + Print + Eprint>(
    rt: &R,
    host: &HostRuntime,
    judged: Judged,
    wanted: &Testing<'_, '_>,
) -> u8
    ensures { IsToldTest (map outcome_in judged.slots.items) result }
{
    let tally = tally_of(judged.slots.as_slice());
    let status = tested_status(has_failed(judged.slots.as_slice()));
    if let Err(fault) = tell_output(rt, judged.slots.as_slice(), &tally, wanted) {
        return end_telling(rt, fault);
    }
    let Some(path) = wanted.junit else {
        return status;
    };
    match write_junit(rt, host, path, judged, wanted.folders, &tally) {
        Ok(()) => status,
        Err(status) => status,
    }
}

/// Judges the scripts of folders, tells what became of each, and answers the exit status.
pub(crate) fn test<R: AllocGlobal + Files + Print + Eprint + Threads + Wait + Sync>(
    rt: &R,
    host: &HostRuntime,
    wanted: &Testing<'_, '_>,
) -> u8
    ensures { IsTested result }
{
    match judged_in(rt, host, wanted) {
        Ok(judged) => tell_judged(rt, host, judged, wanted),
        Err(AllocError) => report(rt, memory_report()),
    }
}
