//! What is told as text: a line of a finding, of an error, and of the sum.
ghost use Rattle.std.specs.Prelude.{◌≡◌, ◌++◌, codes};
ghost use Rattle.gp_decode.specs.Appending.{Appends};
ghost use Rattle.gp_watch.specs.Heard.{heard_of};
ghost use Rattle.gp_finding.specs.Hearing.{heard_in};
ghost use Rattle.gp_finding.specs.Names.{side_name};
ghost use Rattle.gp_finding.specs.Text as spec;

use crate::error::{AuditSum, LineError};
use crate::names::{Side, rule_name, side_of};
use crate::piece::{Piece, push_pieces};
use crate::push::Place;
use crate::reason::push_reason;
use crate::why::Why;
use crate::words::push_said;
use gp_log::{LogFault, Said};
use gp_observer::Rule;
use gp_ploam::Mask;
use gp_watch::Heard;
use std::alloc::AllocError;

// ---- a finding

/// Gives the name of a side.
pub(crate) fn side_name(side: Side) -> &'static str
    ensures { result.now ≡ side_name side }
{
    match side {
        Side::Terminal => "terminal",
        Side::Unit => "unit",
    }
}

/// Appends a line's number, and its port where that isn't 0.
fn push_place(out: &mut Vec<u8>, place: &Place) -> Result<(), AllocError>
    ensures { Appends (spec.place_text place.now) out.old out.new result }
{
    if place.port == 0 {
        return push_pieces(out, &[Piece::Word("line "), Piece::Count(place.line)]);
    }
    push_pieces(
        out,
        &[
            Piece::Word("line "),
            Piece::Count(place.line),
            Piece::Word(", port "),
            Piece::Onu(place.port),
        ],
    )
}

/// Appends whose rule it is, and which.
fn push_rule(out: &mut Vec<u8>, heard: &Heard, rule: Rule) -> Result<(), AllocError>
    ensures { Appends (spec.rule_text (heard_of heard.now) rule) out.old out.new result }
{
    push_pieces(
        out,
        &[
            Piece::Word(": "),
            Piece::Word(side_name(side_of(heard))),
            Piece::Word(" "),
            Piece::Word(rule_name(rule)),
            Piece::Word(": "),
        ],
    )
}

/// Appends the line of a rule that is broken by what is heard where this was said.
pub(crate) fn push_finding_text(
    out: &mut Vec<u8>,
    mask: Mask,
    place: &Place,
    said: &Said,
    heard: &Heard,
    rule: Rule,
    why: Why,
) -> Result<(), AllocError>
    requires { heard_of heard.now ≡ heard_in mask said.now }
    ensures { Appends (spec.finding_text place.now said.now (heard_of heard.now) rule why) out.old out.new result }
{
    push_place(out, place)?;
    push_rule(out, heard, rule)?;
    push_said(out, mask, said)?;
    push_pieces(out, &[Piece::Word(", ")])?;
    push_reason(out, why)?;
    push_pieces(out, &[Piece::Word("\n")])
}

// ---- an error

/// Gives the name of a fault of a line.
fn fault_name(fault: LogFault) -> &'static str
    ensures { result.now ≡ spec.fault_name fault }
{
    match fault {
        LogFault::Word => "word",
        LogFault::Number => "number",
        LogFault::Code => "code",
        LogFault::Time => "time",
        LogFault::Long => "long",
    }
}

/// Gives the name of an error.
pub(crate) fn error_name(error: LineError) -> &'static str
    ensures { result.now ≡ spec.error_name error }
{
    match error {
        LineError::Log(fault) => fault_name(fault),
        LineError::Time => "time",
        LineError::Full => "full",
    }
}

/// Appends the line of a line that is not audited.
pub(crate) fn push_error_text(
    out: &mut Vec<u8>,
    line: u64,
    error: LineError,
) -> Result<(), AllocError>
    ensures { Appends (spec.error_text line error) out.old out.new result }
{
    push_pieces(
        out,
        &[
            Piece::Word("error "),
            Piece::Count(line),
            Piece::Word(" "),
            Piece::Word(error_name(error)),
            Piece::Word("\n"),
        ],
    )
}

// ---- the sum

/// Appends how many there are of a thing: one has its own word.
fn push_counted(
    out: &mut Vec<u8>,
    count: u64,
    one: &'static str,
    many: &'static str,
) -> Result<(), AllocError>
    ensures { Appends (spec.counted_text count one.now many.now) out.old out.new result }
{
    if count == 1 {
        return push_pieces(out, &[Piece::Word("1 "), Piece::Word(one)]);
    }
    push_pieces(
        out,
        &[Piece::Count(count), Piece::Word(" "), Piece::Word(many)],
    )
}

/// Appends how many errors there are.
fn push_some(out: &mut Vec<u8>, errors: u64) -> Result<(), AllocError>
    ensures { Appends (codes ", " ++ spec.counted_text errors (codes "error") (codes "errors")) out.old out.new result }
{
    push_pieces(out, &[Piece::Word(", ")])?;
    push_counted(out, errors, "error", "errors")
}

/// Appends how many errors there are, where there are some.
fn push_errors(out: &mut Vec<u8>, errors: u64) -> Result<(), AllocError>
    ensures { Appends (spec.errors_text errors) out.old out.new result }
{
    if errors == 0 {
        push_pieces(out, &[])
    } else {
        push_some(out, errors)
    }
}

/// Appends the line of the sum.
pub(crate) fn push_sum_text(out: &mut Vec<u8>, sum: &AuditSum) -> Result<(), AllocError>
    ensures { Appends (spec.sum_text sum.now) out.old out.new result }
{
    push_counted(out, sum.lines, "line", "lines")?;
    push_pieces(out, &[Piece::Word(", ")])?;
    push_counted(out, sum.findings, "finding", "findings")?;
    push_errors(out, sum.errors)?;
    push_pieces(out, &[Piece::Word("\n")])
}
