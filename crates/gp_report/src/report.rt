//! The line on standard error, without its line feed, and the exit status of each fault.
ghost use Rattle.std.specs.Prelude.{◌≡◌};
ghost use Rattle.gp_report.specs.Report.{arguments_line, code_line, code_status, few_lines_line, memory_line, no_line_line, run_line, run_status, script_line, unanswered_line, unanswered_status, verdict_line, verify_line, verify_status, write_line};
ghost use Rattle.gp_report.specs.Words.{explain_line, explain_status, input_line, input_status, none_line, part_line, words_line};

use crate::status::{
    BAD_ARGUMENTS, BAD_INPUT, DISAGREEMENT, JOURNAL_FULL, NOT_A_RUN, NOT_WRITTEN, OUT_OF_MEMORY,
};
use gp_decode::DecodeFault;
use gp_encode::WordsFault;
use gp_explain::{ExplainFault, NoLine};
use gp_flow::{LinesFault, Unanswered};
use gp_lines::LineFault as PartFault;
use gp_replay::RunFault;
use gp_script::ScriptFault;
use gp_verify::{Verdict, VerifyFault};

/// Answers the line and the status of a program that is out of memory.
pub fn memory_report() -> (&'static str, u8)
    ensures line { result.0.now ≡ memory_line }
    ensures status { result.1 ≡ OUT_OF_MEMORY }
{
    ("oltctl: memory", OUT_OF_MEMORY)
}

/// Answers the line and the status of a program whose output took no more.
pub fn write_report() -> (&'static str, u8)
    ensures line { result.0.now ≡ write_line }
    ensures status { result.1 ≡ NOT_WRITTEN }
{
    ("oltctl: write", NOT_WRITTEN)
}

/// Answers the line and the status of a program one of whose words is no UTF-8.
pub fn arguments_report() -> (&'static str, u8)
    ensures line { result.0.now ≡ arguments_line }
    ensures status { result.1 ≡ BAD_ARGUMENTS }
{
    ("oltctl: arguments", BAD_ARGUMENTS)
}

/// Answers the line and the status of a replay or of a storm that ended with this fault.
pub fn run_report(fault: &RunFault) -> (&'static str, u8)
    ensures line { result.0.now ≡ run_line fault.now }
    ensures status { result.1 ≡ run_status fault.now }
{
    match *fault {
        RunFault::Read => ("oltctl: read", BAD_INPUT),
        RunFault::TooLong => ("oltctl: too long", BAD_INPUT),
        RunFault::Script(fault) => (script_report_line(fault), BAD_INPUT),
        RunFault::OutOfMemory => memory_report(),
        RunFault::Write => write_report(),
        RunFault::Mismatch => ("oltctl: mismatch", DISAGREEMENT),
        RunFault::JournalFull => ("oltctl: journal full", JOURNAL_FULL),
    }
}

/// Answers the line of a fault of a script.
fn script_report_line(fault: ScriptFault) -> &'static str
    ensures { result.now ≡ script_line fault }
{
    match fault {
        ScriptFault::Syntax => "oltctl: script 1 syntax",
        ScriptFault::Shape => "oltctl: script 2 shape",
        ScriptFault::Range => "oltctl: script 3 range",
        ScriptFault::Serial => "oltctl: script 4 serial",
        ScriptFault::Hex => "oltctl: script 5 hex",
        ScriptFault::Duplicate => "oltctl: script 6 duplicate",
    }
}

/// Answers the line and the status of a code that was not said in words.
pub fn line_report(fault: &DecodeFault) -> (&'static str, u8)
    ensures line { result.0.now ≡ code_line fault.now }
    ensures status { result.1 ≡ code_status fault.now }
{
    match fault {
        DecodeFault::Length => ("oltctl: decode length", BAD_INPUT),
        DecodeFault::Digit => ("oltctl: decode digit", BAD_INPUT),
        DecodeFault::Crc => ("oltctl: decode crc", BAD_INPUT),
        DecodeFault::Direction => ("oltctl: decode direction", BAD_INPUT),
        DecodeFault::OutOfMemory => memory_report(),
        DecodeFault::Write => write_report(),
    }
}

/// Answers the line, without the number of the trace's line, and the status of a verification that ended with this
/// fault.
pub fn verify_report(fault: &VerifyFault) -> (&'static str, u8)
    ensures line { result.0.now ≡ verify_line fault.now }
    ensures status { result.1 ≡ verify_status fault.now }
{
    match *fault {
        VerifyFault::Refused { line: _, verdict } => (verdict_report_line(verdict), NOT_A_RUN),
        VerifyFault::Unended { line: _ } => ("oltctl: no line feed", NOT_A_RUN),
        VerifyFault::Lines(LinesFault::Read) => ("oltctl: read", BAD_INPUT),
        VerifyFault::Lines(LinesFault::Line(line)) => unanswered_report(line),
    }
}

/// Answers the line of a verdict that ended a verification.
fn verdict_report_line(verdict: Verdict) -> &'static str
    ensures { result.now ≡ verdict_line verdict }
{
    match verdict {
        Verdict::NotALine => "oltctl: no line of a trace",
        Verdict::NoPort => "oltctl: no such port",
        Verdict::WrongNumber => "oltctl: not the next number",
        Verdict::TooLong => "oltctl: line too long",
        Verdict::NotAStep | Verdict::Follows => "oltctl: not a run",
    }
}

/// Answers the line and the status where a trace was to have lines, and none came.
pub fn no_line_report() -> (&'static str, u8)
    ensures line { result.0.now ≡ no_line_line }
    ensures status { result.1 ≡ NOT_A_RUN }
{
    ("oltctl: no line came", NOT_A_RUN)
}

/// Answers the line, without the number of lines that were asked for at least, and the status where a trace has fewer.
pub fn few_lines_report() -> (&'static str, u8)
    ensures line { result.0.now ≡ few_lines_line }
    ensures status { result.1 ≡ NOT_A_RUN }
{
    ("oltctl: too few lines", NOT_A_RUN)
}

/// Answers the line and the status where a line of a trace was not judged.
fn unanswered_report(line: Unanswered) -> (&'static str, u8)
    ensures line { result.0.now ≡ unanswered_line line }
    ensures status { result.1 ≡ unanswered_status line }
{
    match line {
        Unanswered::OutOfMemory => memory_report(),
        Unanswered::Write => write_report(),
        Unanswered::Full => ("oltctl: too many lines", BAD_INPUT),
    }
}

/// Answers the line and the status where not all lines of an input were answered.
pub fn input_report(fault: &LinesFault) -> (&'static str, u8)
    ensures line { result.0.now ≡ input_line fault.now }
    ensures status { result.1 ≡ input_status fault.now }
{
    match *fault {
        LinesFault::Read => ("oltctl: read", BAD_INPUT),
        LinesFault::Line(line) => unanswered_report(line),
    }
}

/// Answers the line, without the number of the trace's line, and the status of an explanation that ended with this
/// fault.
pub fn explain_report(fault: &ExplainFault) -> (&'static str, u8)
    ensures line { result.0.now ≡ explain_line fault.now }
    ensures status { result.1 ≡ explain_status fault.now }
{
    match fault {
        ExplainFault::Refused { line: _, why } => (none_report_line(*why), BAD_INPUT),
        ExplainFault::Lines(fault) => input_report(fault),
    }
}

/// Answers the line of why a line is none of a trace.
fn none_report_line(why: NoLine) -> &'static str
    ensures { result.now ≡ none_line why }
{
    match why {
        NoLine::NotALine => "oltctl: no line of a trace",
        NoLine::TooLong => "oltctl: line too long",
    }
}

/// Answers the line and the status of words that have no code.
pub fn encode_report(fault: &WordsFault) -> (&'static str, u8)
    ensures line { result.0.now ≡ words_line fault.now }
    ensures status { result.1 ≡ BAD_INPUT }
{
    match *fault {
        WordsFault::Part(part) => (part_report_line(part), BAD_INPUT),
        WordsFault::Named => ("oltctl: encode named", BAD_INPUT),
    }
}

/// Answers the line of a part of words that has this fault.
fn part_report_line(fault: PartFault) -> &'static str
    ensures { result.now ≡ part_line fault }
{
    match fault {
        PartFault::Word => "oltctl: encode word",
        PartFault::Number => "oltctl: encode number",
        PartFault::Serial => "oltctl: encode serial",
        PartFault::Hex => "oltctl: encode hex",
        PartFault::Range => "oltctl: encode range",
        PartFault::Long => "oltctl: encode long",
        PartFault::Space => "oltctl: encode space",
    }
}
