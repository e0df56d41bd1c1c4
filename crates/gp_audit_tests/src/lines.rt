//! Lines that are none, times that fall, ports, forms, logs that come octet by octet, reads that fail, no line at all.
use crate::words::{audited, plain_options};
use gp_audit::{AuditForm, Auditor, audit_log};
use gp_finding::AuditSum;
use gp_flow::LinesFault;
use gp_stream::{Sink, Source};
use std::alloc::Global;
use std::io;
use std::io::{ErrorKind, Read};
use std::process::Abort;
use std::test::Fail;

/// A log of two ports with something of each kind: remarks, findings, lines that are none, times that fall.
const MIXED: &'static str = "\
# begins with a remark\n\
\n\
1 down ff0303414243440000000100a3\n\
1 down ff0303414243440000000100a4\n\
3 2 down ff060f00000000000000000053\r\n\
3 1 grant search\n\
1 grant poll 7\n\
here is no log\n\
16 1 grant search\n\
1,5 grant search\n\
0 1 frame = ok grant range 9\n\
3 2 up 0004000000000000000000007c 5";

/// What is told of it.
const TOLD: &'static str = "\
line 3: terminal unasked: Assign_ONU-ID 3 ABCD00000001, it didn't ask\n\
line 4: terminal garbled: ff0303414243440000000100a4, a3 should stand\n\
error 6 time\n\
line 7: terminal grant: grant poll 7, nobody holds 7\n\
error 8 word\n\
error 9 number\n\
line 11: terminal grant: grant range 9, nobody holds 9\n\
line 12, port 3: unit number: No_message 0, nobody holds 0\n\
12 lines, 5 findings, 3 errors\n";

/// The same with each line before what is told of it.
const IN_WORDS: &'static str = "\
# begins with a remark\n\
\n\
1 down ff0303414243440000000100a3 (Assign_ONU-ID 3 ABCD00000001)\n\
line 3: terminal unasked: Assign_ONU-ID 3 ABCD00000001, it didn't ask\n\
1 down ff0303414243440000000100a4 (a3 should stand)\n\
line 4: terminal garbled: ff0303414243440000000100a4, a3 should stand\n\
3 2 down ff060f00000000000000000053 (Enable_All)\n\
3 1 grant search\n\
error 6 time\n\
1 grant poll 7\n\
line 7: terminal grant: grant poll 7, nobody holds 7\n\
here is no log\n\
error 8 word\n\
16 1 grant search\n\
error 9 number\n\
1,5 grant search\n\
0 1 frame = ok grant range 9\n\
line 11: terminal grant: grant range 9, nobody holds 9\n\
3 2 up 0004000000000000000000007c 5 (No_message 0)\n\
line 12, port 3: unit number: No_message 0, nobody holds 0\n\
12 lines, 5 findings, 3 errors\n";

/// The same as JSON.
const AS_JSON: &'static str = "\
{\"line\":3,\"port\":0,\"side\":\"terminal\",\"rule\":\"unasked\",\"message\":\"Assign_ONU-ID 3 ABCD00000001\",\"onu\":3,\"serial\":\"ABCD00000001\",\"why\":\"it didn't ask\"}\n\
{\"line\":4,\"port\":0,\"side\":\"terminal\",\"rule\":\"garbled\",\"message\":null,\"onu\":null,\"serial\":null,\"why\":\"a3 should stand\"}\n\
{\"error\":\"time\",\"line\":6}\n\
{\"line\":7,\"port\":0,\"side\":\"terminal\",\"rule\":\"grant\",\"message\":\"grant poll 7\",\"onu\":7,\"serial\":null,\"why\":\"nobody holds 7\"}\n\
{\"error\":\"word\",\"line\":8}\n\
{\"error\":\"number\",\"line\":9}\n\
{\"line\":11,\"port\":0,\"side\":\"terminal\",\"rule\":\"grant\",\"message\":\"grant range 9\",\"onu\":9,\"serial\":null,\"why\":\"nobody holds 9\"}\n\
{\"line\":12,\"port\":3,\"side\":\"unit\",\"rule\":\"number\",\"message\":\"No_message 0\",\"onu\":0,\"serial\":null,\"why\":\"nobody holds 0\"}\n\
{\"lines\":12,\"findings\":5,\"errors\":3}\n";

/// Gives one octet a read, and fails behind the last one where that is wanted.
#[derive(Drop)]
struct Drip<'a> {
    rest: &'a [u8],
    fails: bool,
}

impl Read for Drip<'_> {
    fn read(&mut self, buffer: &mut [u8]) -> io::Result<usize> {
        match (self.rest.split_first(), buffer.first_mut()) {
            (Some((first, rest)), Some(place)) => {
                *place = *first;
                self.rest = rest;
                Ok(1)
            }
            _ if self.fails => Err(io::Error::from(ErrorKind::Other)),
            _ => Ok(0),
        }
    }
}

/// Gives what is written of a log that comes octet by octet, and how the audit ends.
fn dripped(
    alloc: Global,
    log: &str,
    fails: bool,
) -> Result<(Vec<u8>, Result<AuditSum, LinesFault>), LinesFault> {
    let rest = log.as_bytes();
    let mut source = Source::endless(Drip { rest, fails });
    let mut sink = Sink::new(alloc, Vec::new(alloc))?;
    let mut auditor = Auditor::begin(alloc, &plain_options())?;
    let sum = audit_log(alloc, &mut source, &mut sink, &mut auditor);
    Ok((sink.into_inner(), sum))
}

/// Checks what is written of the mixed log in a form.
fn assert_told(
    rt: &(impl AllocGlobal + Abort),
    form: AuditForm,
    wanted: &str,
) -> Result<(), LinesFault> {
    let mut options = plain_options();
    options.form = form;
    let told = audited(rt.alloc(), &options, MIXED.as_bytes())?;
    assert_eq!(rt; std::str::from_utf8(told.as_slice()), Ok(wanted));
    Ok(())
}

#[test]
fn as_text(rt: HostRuntime) -> Result<(), Fail> {
    assert_told(&rt, AuditForm::Text, TOLD)?;
    Ok(())
}

#[test]
fn in_words(rt: HostRuntime) -> Result<(), Fail> {
    assert_told(&rt, AuditForm::Words, IN_WORDS)?;
    Ok(())
}

#[test]
fn as_json(rt: HostRuntime) -> Result<(), Fail> {
    assert_told(&rt, AuditForm::Json, AS_JSON)?;
    Ok(())
}

#[test]
fn octet_by_octet(rt: HostRuntime) -> Result<(), Fail> {
    let (told, sum) = dripped(rt.alloc(), MIXED, false)?;
    assert_eq!(rt; told.as_slice(), TOLD.as_bytes());
    let wanted = AuditSum {
        lines: 12,
        findings: 5,
        errors: 3,
    };
    assert_eq!(rt; sum, Ok(wanted));
    Ok(())
}

#[test]
fn a_read_that_fails(rt: HostRuntime) -> Result<(), Fail> {
    let (told, sum) = dripped(rt.alloc(), "1 grant poll 7\n2 grant", true)?;
    let wanted = "line 1: terminal grant: grant poll 7, nobody holds 7\n";
    assert_eq!(rt; told.as_slice(), wanted.as_bytes());
    assert_eq!(rt; sum, Err(LinesFault::Read));
    Ok(())
}

#[test]
fn no_line(rt: HostRuntime) -> Result<(), Fail> {
    let (told, sum) = dripped(rt.alloc(), "", false)?;
    assert_eq!(rt; told.as_slice(), b"0 lines, 0 findings\n".as_slice());
    let wanted = AuditSum {
        lines: 0,
        findings: 0,
        errors: 0,
    };
    assert_eq!(rt; sum, Ok(wanted));
    Ok(())
}
