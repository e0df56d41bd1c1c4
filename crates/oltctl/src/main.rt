//! `oltctl`: plays a script and writes its trace, answers lines that ask for something, runs a script's events at once
//! by threads and writes the totals, plays the scripts of folders and compares each with its trace, writes a script by
//! chance, tells whether a trace is one of a correct line terminal, names each rule that a message of a log breaks,
//! draws a log as a picture or as waves, writes a trace again with its codes in words or as a log, says in words which
//! message a code is, and gives the code of a message in words.
//!
//! Promise: what the words of a command line ask for is done, and each ending has its status (`main`). How they are
//! read is `gp_command_line`'s.
//!
//! - `replaying.rt`, `answering.rt` (`drive`), `storming.rt`, `checking.rt`, `testing.rt`, `generating.rt`,
//!   `verifying.rt`, `auditing.rt`, `picturing.rt`, `waving.rt`, `explaining.rt`, `decoding.rt`, `encoding.rt`: one
//!   command each, from its inputs to how it ended. Which one is wanted is looked up here.
//! - `telling.rt` has what is told while a script is played or driven; what is told of ports and units is
//!   `gp_with_units`'.
//! - `objects.rt`: one code, or the words of one message, as an object.
//! - `testing.rt`: scripts of folders, several at once, and what is told of them. `scripts.rt`: which files of a folder
//!   are scripts, and what stands beside them; `judging.rt`: one of them, from its files to what became of it.
//!   `replacing.rt`: JUnit's file; `opened.rt`: names that stand for what the program has open.
//! - `observed.rt`: an input, and what is remembered of it. `joined.rt`: words as one text, as they are decoded or
//!   encoded. `descriptors.rt`: what is held where a standard stream is closed.
//! - `reporting.rt`: what goes to standard error, with the exit status. `unjudged.rt`: what an audit did not judge.
//! - `progress.rt`: lines that went by, told once a second; `ticking.rt`: seconds that went by, where no lines are
//!   counted.
#![tactic(auto)]

ghost use Rattle.std.specs.Prelude.{◌≡◌, ◌≤◌, map};
ghost use Rattle.std.specs.String.{string_bytes};
ghost use Rattle.clap.specs.Values.{kind_of};
ghost use Rattle.std.specs.IoError.{error_kind};
ghost use Rattle.oltctl.specs.Statuses.{IsArgumentsReport, IsRun, IsServed, IsStatusOf, greatest_status};

mod answering;
mod auditing;
mod checking;
mod decoding;
mod descriptors;
mod encoding;
mod explaining;
mod generating;
mod joined;
mod judging;
mod objects;
mod observed;
mod opened;
mod picturing;
mod progress;
mod replacing;
mod replaying;
mod reporting;
mod scripts;
mod storming;
mod telling;
mod testing;
mod ticking;
mod unjudged;
mod verifying;
mod waving;

use answering::{DriveWanted, drive};
use auditing::audit;
use checking::{check_files, end_check};
use clap::Error;
use clap::error::ErrorKind;
use decoding::{CodesTold, decode_alone, decode_lines_of};
use descriptors::hold;
use encoding::{encode, encode_lines_of};
use explaining::explain;
use generating::generate;
use gp_command_line::{Request, parse, request_of};
use gp_drive::DriveManner;
use gp_report::{BAD_ARGUMENTS, SUCCESS, arguments_report, memory_report, write_report};
use objects::decode_shown;
use picturing::picture;
use replaying::replay;
use reporting::report;
use std::io;
use std::process::ExitCode;
use std::rt::{Clock, Env, Files};
use std::sync::Wait;
use std::thread::Threads;
use storming::storm;
use telling::is_plain;
use testing::test;
use verifying::verify;
use waving::waves;

/// Does what is asked for, and answers the exit status. `host` is the same runtime, for threads that open files.
fn serve<R: AllocGlobal + Files + Print + Eprint + Input + Clock + Threads + Wait + Sync>(
    rt: &R,
    host: &HostRuntime,
    request: Request<'_, '_>,
) -> u8
    ensures served { IsServed request.entry result }
    ensures bound { result ≤ greatest_status }
{
    match request {
        Request::Replay { file, play } => replay(rt, file, play),
        Request::Drive {
            script,
            told,
            done,
            units,
        } => {
            let manner = DriveManner {
                done,
                lights: !is_plain(told),
            };
            let wanted = DriveWanted {
                told,
                manner,
                units,
            };
            drive(rt, script, wanted)
        }
        Request::Check { files, manner } => end_check(rt, &check_files(rt, files, manner)),
        Request::Test(wanted) => test(rt, host, &wanted),
        Request::Storm { file, play } => storm(rt, file, play),
        Request::Generate(asked) => generate(rt, &asked),
        Request::Verify(wanted) => verify(rt, wanted),
        Request::Audit(wanted) => audit(rt, &wanted),
        Request::Picture(wanted) => picture(rt, &wanted),
        Request::Waves(wanted) => waves(rt, &wanted),
        Request::Decode {
            code,
            upstream,
            mask,
            json: true,
            ..
        } => decode_shown(rt, code, upstream, mask),
        Request::Decode {
            code,
            upstream,
            mask,
            names,
            json: false,
        } => decode_alone(rt, code, upstream, mask, names),
        Request::DecodeLines {
            codes,
            direction,
            mask,
            names,
            json,
        } => decode_lines_of(rt, codes, direction, CodesTold { mask, names, json }),
        Request::EncodeLines {
            upstream,
            mask,
            json,
        } => encode_lines_of(rt, upstream, mask, json),
        Request::Encode {
            words,
            upstream,
            mask,
            json,
        } => encode(rt, words, upstream, mask, json),
        Request::Explain(wanted) => explain(rt, &wanted),
    }
}

/// Shows the help that was asked for, or what is wrong with a command line, and answers the exit
/// status.
fn refuse<R: Print + Eprint>(rt: &R, error: &Error) -> u8
    ensures { IsStatusOf (kind_of error.now) result }
{
    if error.kind() == ErrorKind::OutOfMemory {
        return report(rt, memory_report());
    }
    match error.print(rt) {
        _ if error.use_stderr() => BAD_ARGUMENTS,
        Ok(()) => SUCCESS,
        Err(_) => report(rt, write_report()),
    }
}

/// Gives the words of the command line, the first of which is the program's name.
fn arguments_of<R: AllocGlobal + Env>(rt: &R) -> io::Result<Vec<String>> {
    Ok(std::env::args(rt)?.collect(rt.alloc())?)
}

/// Answers the line on standard error and the exit status where the command line was not read: the program is
/// out of memory, or one of its words is no UTF-8.
fn words_report(error: &io::Error) -> (&'static str, u8)
    ensures { IsArgumentsReport (error_kind error.now) result.0.now result.1 }
{
    match error.kind() {
        io::ErrorKind::OutOfMemory => memory_report(),
        _ => arguments_report(),
    }
}

/// Does what the words of a command line ask for, and answers the exit status. The first word is the program's name.
fn run_words<R: AllocGlobal + Files + Print + Eprint + Input + Clock + Threads + Wait + Sync>(
    rt: &R,
    host: &HostRuntime,
    words: &[String],
) -> u8
    ensures ended { IsRun (map string_bytes words.now) result }
    ensures bound { result ≤ greatest_status }
{
    match parse(rt.alloc(), words) {
        Ok(matches) => match request_of(&matches) {
            Some(request) => serve(rt, host, request),
            None => BAD_ARGUMENTS,
        },
        Err(error) => refuse(rt, &error),
    }
}

/// Runs the command line, and answers the exit status.
fn run<R: AllocGlobal + Env + Files + Print + Eprint + Input + Clock + Threads + Wait + Sync>(
    rt: &R,
    host: &HostRuntime,
) -> u8
    ensures { result ≤ greatest_status }
{
    let input = hold(rt);
    let output = hold(rt);
    let errors = hold(rt);
    let status = match arguments_of(rt) {
        Ok(arguments) => run_words(rt, host, arguments.as_slice()),
        Err(error) => report(rt, words_report(&error)),
    };
    drop(input);
    drop(output);
    drop(errors);
    status
}

fn main(rt: HostRuntime) -> ExitCode {
    ExitCode::from(run(&rt, &rt))
}
