//! Exports of analysers and spreadsheets, audited with a layout: each gives what the same log without columns gives.
use crate::words::plain_options;
use gp_audit::{Auditor, audit_log};
use gp_flow::LinesFault;
use gp_stream::{Sink, Source};
use line_columns::{Columns, Layout, Separator, TimeUnit, place_of};
use std::alloc::Global;
use std::process::Abort;
use std::rt::HostRuntime;
use std::test::Fail;

/// What is told of a heading, an assignment that nobody asked for and a burst of nobody.
const TOLD: &'static str = "\
line 2: terminal unasked: Assign_ONU-ID 3 ABCD00000001, it didn't ask\n\
line 3: unit number: No_message 0, nobody holds 0\n\
3 lines, 2 findings\n";

/// The same, where all of it is on port 1.
const TOLD_OF_PORT: &'static str = "\
line 2, port 1: terminal unasked: Assign_ONU-ID 3 ABCD00000001, it didn't ask\n\
line 3, port 1: unit number: No_message 0, nobody holds 0\n\
3 lines, 2 findings\n";

/// Seconds, all fields quoted, and quotation marks within one, as network analysers export packets.
const PACKETS: &'static str = "\
\"No.\",\"Time\",\"Direction\",\"Length\",\"Info\",\"Code\"\r\n\
\"1\",\"0.000125\",\"Downstream\",\"13\",\"said \"\"assign\"\", once\",\"ff0303414243440000000100a3\"\r\n\
\"2\",\"0.000250\",\"Upstream\",\"13\",\"idle\",\"0004000000000000000000007c\"\r\n";

/// Milliseconds with decimals and a delay, parted by semicolons.
const SEMICOLONS: &'static str = "\
ms;dir;octets;delay\n\
0.125;DS;FF:03:03:41:42:43:44:00:00:00:01:00:A3;0\n\
0.250;US;00:04:00:00:00:00:00:00:00:00:00:00:7C;5\n";

/// Nanoseconds, parted by tabs.
const TABS: &'static str = "\
time [ns]\tcode\tdir\n\
125000\t0xff0303414243440000000100a3\td\n\
250000\t0x0004000000000000000000007c\tu\n";

/// A column of ports.
const PORTS: &'static str = "\
port,us,direction,code\n\
1,125.0,down,ff0303414243440000000100a3\n\
1,250.5,up,0004000000000000000000007c\n";

/// Codes with spaces between octets, quoted, and spaces around fields.
const SPACED: &'static str = "\
time, dir, code\n\
125us, ds, \"FF 03 03 41 42 43 44 00 00 00 01 00 A3\"\n\
250us, us, \"00 04 00 00 00 00 00 00 00 00 00 00 7C\"\n";

/// A column with commas in quotation marks, and one behind those that are wanted.
const NOTED: &'static str = "\
note,dir,frame,code,operator\n\
\"first, of two\",down,1,ff0303414243440000000100a3,\"A, B\"\n\
\"a \"\"burst\"\", alone\",up,2,0004000000000000000000007c,\n";

/// The columns of a log with the names of these in its first line, and no others.
fn columns_of(separator: Separator, log: &str, names: (&str, &str, &str)) -> Option<Columns> {
    let heading = log.lines().next()?.as_bytes();
    Some(Columns {
        separator,
        time: place_of(separator, names.0.as_bytes(), heading)?,
        direction: place_of(separator, names.1.as_bytes(), heading)?,
        code: place_of(separator, names.2.as_bytes(), heading)?,
        delay: place_of(separator, b"delay", heading),
        port: place_of(separator, b"port", heading),
    })
}

/// Gives what is written of a log with columns.
fn told_of(
    alloc: Global,
    log: &str,
    unit: TimeUnit,
    columns: Columns,
) -> Result<Vec<u8>, LinesFault> {
    let heading = log.lines().next().unwrap_or("");
    let layout = Layout::columned(alloc, unit, columns, heading.as_bytes())?;
    let mut source = Source::endless(log.as_bytes());
    let mut sink = Sink::new(alloc, Vec::new(alloc))?;
    let mut auditor = Auditor::begin_with(alloc, &plain_options(), layout)?;
    audit_log(alloc, &mut source, &mut sink, &mut auditor)?;
    Ok(sink.into_inner())
}

/// Checks what is told of a log whose columns have these names.
fn assert_told(
    rt: &(impl AllocGlobal + Abort),
    log: &str,
    separator: Separator,
    unit: TimeUnit,
    names: (&str, &str, &str),
    wanted: &str,
) -> Result<(), LinesFault> {
    let columns = columns_of(separator, log, names);
    assert!(rt; columns.is_some());
    if let Some(columns) = columns {
        let told = told_of(rt.alloc(), log, unit, columns)?;
        assert_eq!(rt; std::str::from_utf8(told.as_slice()), Ok(wanted));
    }
    Ok(())
}

#[test]
fn exports_are_read(rt: HostRuntime) -> Result<(), Fail> {
    assert_told(
        &rt,
        PACKETS,
        Separator::Comma,
        TimeUnit::Seconds,
        ("Time", "Direction", "Code"),
        TOLD,
    )?;
    assert_told(
        &rt,
        SEMICOLONS,
        Separator::Semicolon,
        TimeUnit::Milliseconds,
        ("ms", "dir", "octets"),
        TOLD,
    )?;
    assert_told(
        &rt,
        TABS,
        Separator::Tab,
        TimeUnit::Nanoseconds,
        ("time [ns]", "dir", "code"),
        TOLD,
    )?;
    assert_told(
        &rt,
        PORTS,
        Separator::Comma,
        TimeUnit::Microseconds,
        ("us", "direction", "code"),
        TOLD_OF_PORT,
    )?;
    assert_told(
        &rt,
        SPACED,
        Separator::Comma,
        TimeUnit::Frames,
        ("time", "dir", "code"),
        TOLD,
    )?;
    assert_told(
        &rt,
        NOTED,
        Separator::Comma,
        TimeUnit::Frames,
        ("frame", "dir", "code"),
        TOLD,
    )?;
    Ok(())
}

/// A line of fewer columns, one whose quotation mark isn't closed, a time of two numbers, a code of fourteen octets,
/// and the heading once more.
const BROKEN: &'static str = "\
time,dir,code\n\
1,down\n\
2,down,\"ff0303414243440000000100a3\n\
\"1,250\",down,ff0303414243440000000100a3\n\
3,up,000400000000000000000000007c00\n\
time,dir,code\n\
\n\
# a remark\n";

#[test]
fn other_lines_are_errors(rt: HostRuntime) -> Result<(), Fail> {
    let wanted = "\
error 2 number\n\
error 3 number\n\
error 4 word\n\
error 5 code\n\
8 lines, 0 findings, 4 errors\n";
    assert_told(
        &rt,
        BROKEN,
        Separator::Comma,
        TimeUnit::Frames,
        ("time", "dir", "code"),
        wanted,
    )?;
    Ok(())
}

#[test]
fn a_missing_name_is_told(rt: HostRuntime) {
    assert!(rt; columns_of(Separator::Comma, NOTED, ("time", "dir", "code")).is_none());
    assert!(rt; columns_of(Separator::Semicolon, NOTED, ("frame", "dir", "code")).is_none());
}
