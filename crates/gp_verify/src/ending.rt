//! What is told when a verification has ended.
ghost use Rattle.std.specs.Prelude.{◌≡◌, ◌++◌, decimal};
ghost use Rattle.gp_stream.specs.Sink.{Gives, WritesWhole};
ghost use Rattle.gp_verify.specs.Ending as spec;
ghost use Rattle.gp_verify.specs.Ending.{Ends, TellsEnd};

use super::outcome::VerifyFault;
use super::verdict::Verdict;
use gp_explain::Form;
use gp_flow::{LinesFault, Unanswered};
use gp_stream::{Sink, WriteStopped};
use itoa::Buffer;
use std::io::Write;

/// How many lines a trace has to have: as many as are asked for, and else one.
pub fn wanted_lines(at_least: Option<u64>) -> u64
    ensures { result ≡ spec.wanted_lines at_least }
{
    at_least.unwrap_or(1)
}

/// Puts a number between two texts.
fn put_count<W: Write>(
    sink: &mut Sink<W>,
    before: &[u8],
    count: u64,
    behind: &[u8],
) -> Result<(), WriteStopped>
    ensures { Gives sink.old sink.new (before.now ++ decimal count ++ behind.now) result }
{
    let mut digits = Buffer::new();
    sink.put(before)?;
    sink.put(digits.format(count).as_bytes())?;
    sink.put(behind)
}

/// Puts that a trace of so many lines is a run.
fn put_run<W: Write>(sink: &mut Sink<W>, form: Form, lines: u64) -> Result<(), WriteStopped>
    ensures { Gives sink.old sink.new (spec.run_text form lines) result }
{
    match form {
        Form::Plain | Form::Words => put_count(sink, b"", lines, b" lines, a run\n"),
        Form::Json => put_count(sink, b"{\"run\":true,\"lines\":", lines, b"}\n"),
    }
}

/// Gives how the object of a trace of too few lines begins.
fn few_begun(at_least: Option<u64>) -> &'static [u8]
    ensures { result.now ≡ spec.few_begun at_least }
{
    match at_least {
        None => b"{\"run\":false,\"kind\":\"no line came\",\"lines\":",
        Some(_) => b"{\"run\":false,\"kind\":\"too few lines\",\"lines\":",
    }
}

/// Puts the object of a trace of too few lines.
fn put_few_object<W: Write>(
    sink: &mut Sink<W>,
    at_least: Option<u64>,
    lines: u64,
) -> Result<(), WriteStopped>
    ensures { Gives sink.old sink.new (spec.few_object at_least lines) result }
{
    put_count(sink, few_begun(at_least), lines, b",\"wanted\":")?;
    put_count(sink, b"", wanted_lines(at_least), b"}\n")
}

/// Puts that a trace has too few lines.
fn put_few<W: Write>(
    sink: &mut Sink<W>,
    form: Form,
    at_least: Option<u64>,
    lines: u64,
) -> Result<(), WriteStopped>
    ensures { Gives sink.old sink.new (spec.few_text form at_least lines) result }
{
    match form {
        Form::Plain | Form::Words => sink.put(b""),
        Form::Json => put_few_object(sink, at_least, lines),
    }
}

/// Puts that a line is too long.
fn put_long<W: Write>(sink: &mut Sink<W>, form: Form, line: u64) -> Result<(), WriteStopped>
    ensures { Gives sink.old sink.new (spec.long_text form line) result }
{
    match form {
        Form::Plain | Form::Words => sink.put(b""),
        Form::Json => put_count(
            sink,
            b"{\"run\":false,\"kind\":\"line too long\",\"line\":",
            line,
            b"}\n",
        ),
    }
}

/// Puts that the last line has no line feed.
fn put_open<W: Write>(sink: &mut Sink<W>, form: Form, line: u64) -> Result<(), WriteStopped>
    ensures { Gives sink.old sink.new (spec.open_text form line) result }
{
    match form {
        Form::Plain | Form::Words => sink.put(b""),
        Form::Json => put_count(
            sink,
            b"{\"run\":false,\"kind\":\"no line feed\",\"line\":",
            line,
            b"}\n",
        ),
    }
}

/// Puts what is told of a text that was read.
fn put_end<W: Write>(
    sink: &mut Sink<W>,
    form: Form,
    at_least: Option<u64>,
    found: &Result<u64, VerifyFault>,
) -> Result<(), WriteStopped>
    ensures { Gives sink.old sink.new (spec.end_text form at_least found.now) result }
{
    match *found {
        Ok(lines) => {
            if lines < wanted_lines(at_least) {
                put_few(sink, form, at_least, lines)
            } else {
                put_run(sink, form, lines)
            }
        }
        Err(
            VerifyFault::Refused {
                line,
                verdict: Verdict::TooLong,
            },
        ) => put_long(sink, form, line),
        Err(VerifyFault::Unended { line }) => put_open(sink, form, line),
        Err(VerifyFault::Refused { .. } | VerifyFault::Lines(_)) => sink.put(b""),
    }
}

/// Writes what is told of a text that was read.
fn write_end<W: Write>(
    sink: &mut Sink<W>,
    form: Form,
    at_least: Option<u64>,
    found: &Result<u64, VerifyFault>,
) -> Result<(), WriteStopped>
    ensures { WritesWhole sink.old sink.new (spec.end_text form at_least found.now) result }
{
    put_end(sink, form, at_least, found)?;
    sink.finish()
}

/// Tells whether a text was read as far as it counts, and each line judged.
pub fn was_read(found: &Result<u64, VerifyFault>) -> bool
    ensures { result ≡ spec.was_read found.now }
{
    match found {
        Ok(_) | Err(VerifyFault::Refused { .. } | VerifyFault::Unended { .. }) => true,
        Err(VerifyFault::Lines(_)) => false,
    }
}

/// Writes what is told of a text that was read, and answers what was found, or that the sink took no more.
fn tell_read<W: Write>(
    sink: &mut Sink<W>,
    form: Form,
    at_least: Option<u64>,
    found: Result<u64, VerifyFault>,
) -> Result<u64, VerifyFault>
    ensures { TellsEnd (spec.end_text form at_least found) found sink.old sink.new result }
{
    match write_end(sink, form, at_least, &found) {
        Ok(()) => found,
        Err(WriteStopped) => Err(VerifyFault::Lines(LinesFault::Line(Unanswered::Write))),
    }
}

/// Writes what is told when a verification has ended, and answers what was found: of a run that it is one, and as JSON
/// also what is wrong where no line was told: too few lines, one that is too long, or the last one without its line
/// feed. Where the text was not read, or a line not judged, nothing is written. Takes no memory; a write that fails is
/// answered in place of what was found.
pub fn tell_end<W: Write>(
    sink: &mut Sink<W>,
    form: Form,
    at_least: Option<u64>,
    found: Result<u64, VerifyFault>,
) -> Result<u64, VerifyFault>
    ensures { Ends form at_least found sink.old sink.new result }
{
    if !was_read(&found) {
        return found;
    }
    tell_read(sink, form, at_least, found)
}
