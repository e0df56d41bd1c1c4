//! What is told as JSON: an object of a finding, of an error, and of the sum, each on a line of its own.
ghost use Rattle.std.specs.Prelude.{◌≡◌, ◌++◌, codes};
ghost use Rattle.gp_decode.specs.Appending.{Appends};
ghost use Rattle.gp_watch.specs.Heard.{heard_of};
ghost use Rattle.gp_finding.specs.Hearing.{heard_in};
ghost use Rattle.gp_finding.specs.Words.{said_text, words_of};
ghost use Rattle.gp_finding.specs.Object as spec;

use crate::error::{AuditSum, LineError};
use crate::names::{rule_name, side_of};
use crate::piece::{Piece, push_pieces};
use crate::push::Place;
use crate::reason::push_reason;
use crate::text::{error_name, side_name};
use crate::why::Why;
use crate::words::{is_garbled, onu_in, push_said, serial_told};
use gp_log::Said;
use gp_observer::Rule;
use gp_ploam::{Mask, Serial};
use gp_watch::{Heard, PortWatch};
use std::alloc::AllocError;

/// Appends the line and the port, whose rule it is and which, and the name of what stands behind.
fn push_head(out: &mut Vec<u8>, place: &Place, heard: &Heard, rule: Rule) -> Result<(), AllocError>
    ensures { Appends (spec.head_fields place.now (heard_of heard.now) rule) out.old out.new result }
{
    push_pieces(
        out,
        &[
            Piece::Word("{\"line\":"),
            Piece::Count(place.line),
            Piece::Word(",\"port\":"),
            Piece::Onu(place.port),
            Piece::Word(",\"side\":\""),
            Piece::Word(side_name(side_of(heard))),
            Piece::Word("\",\"rule\":\""),
            Piece::Word(rule_name(rule)),
            Piece::Word("\",\"message\":"),
        ],
    )
}

/// Appends what was said in words, between quotation marks.
fn push_quoted(out: &mut Vec<u8>, mask: Mask, said: &Said) -> Result<(), AllocError>
    ensures { Appends (codes "\"" ++ said_text said.now (heard_in mask said.now) ++ codes "\"") out.old out.new result }
{
    push_pieces(out, &[Piece::Word("\"")])?;
    push_said(out, mask, said)?;
    push_pieces(out, &[Piece::Word("\"")])
}

/// Appends the words of what is heard where this was said, or null.
fn push_message(out: &mut Vec<u8>, mask: Mask, said: &Said, heard: &Heard) -> Result<(), AllocError>
    requires { heard_of heard.now ≡ heard_in mask said.now }
    ensures { Appends (spec.text_or_null (words_of (heard_of heard.now))) out.old out.new result }
{
    if is_garbled(heard) {
        push_pieces(out, &[Piece::Word("null")])
    } else {
        push_quoted(out, mask, said)
    }
}

/// Appends an ONU-ID, or null.
fn push_onu(out: &mut Vec<u8>, onu: Option<u8>) -> Result<(), AllocError>
    ensures { Appends (spec.onu_field onu) out.old out.new result }
{
    match onu {
        Some(onu) => push_pieces(out, &[Piece::Word(",\"onu\":"), Piece::Onu(onu)]),
        None => push_pieces(out, &[Piece::Word(",\"onu\":null")]),
    }
}

/// Appends a serial number, or null.
fn push_serial(out: &mut Vec<u8>, serial: Option<Serial>) -> Result<(), AllocError>
    ensures { Appends (spec.serial_field serial) out.old out.new result }
{
    match serial {
        Some(serial) => push_pieces(
            out,
            &[
                Piece::Word(",\"serial\":\""),
                Piece::Serial(serial),
                Piece::Word("\""),
            ],
        ),
        None => push_pieces(out, &[Piece::Word(",\"serial\":null")]),
    }
}

/// Appends the object of a rule that is broken by what is heard where this was said.
pub(crate) fn push_finding_object(
    out: &mut Vec<u8>,
    mask: Mask,
    watch: &PortWatch,
    place: &Place,
    said: &Said,
    heard: &Heard,
    rule: Rule,
    why: Why,
) -> Result<(), AllocError>
    requires { heard_of heard.now ≡ heard_in mask said.now }
    ensures { Appends (spec.finding_object watch.now place.now (heard_of heard.now) rule why) out.old out.new result }
{
    push_head(out, place, heard, rule)?;
    push_message(out, mask, said, heard)?;
    push_onu(out, onu_in(heard))?;
    push_serial(out, serial_told(watch, heard))?;
    push_pieces(out, &[Piece::Word(",\"why\":\"")])?;
    push_reason(out, why)?;
    push_pieces(out, &[Piece::Word("\"}\n")])
}

/// Appends the object of a line that is not audited.
pub(crate) fn push_error_object(
    out: &mut Vec<u8>,
    line: u64,
    error: LineError,
) -> Result<(), AllocError>
    ensures { Appends (spec.error_object line error) out.old out.new result }
{
    push_pieces(
        out,
        &[
            Piece::Word("{\"error\":\""),
            Piece::Word(error_name(error)),
            Piece::Word("\",\"line\":"),
            Piece::Count(line),
            Piece::Word("}\n"),
        ],
    )
}

/// Appends the object of the sum.
pub(crate) fn push_sum_object(out: &mut Vec<u8>, sum: &AuditSum) -> Result<(), AllocError>
    ensures { Appends (spec.sum_object sum.now) out.old out.new result }
{
    push_pieces(
        out,
        &[
            Piece::Word("{\"lines\":"),
            Piece::Count(sum.lines),
            Piece::Word(",\"findings\":"),
            Piece::Count(sum.findings),
            Piece::Word(",\"errors\":"),
            Piece::Count(sum.errors),
            Piece::Word("}\n"),
        ],
    )
}
