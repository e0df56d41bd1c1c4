//! The line on standard error and the exit status of each ending.
use gp_decode::DecodeFault;
use gp_encode::WordsFault;
use gp_explain::{ExplainFault, NoLine};
use gp_flow::{LinesFault, Unanswered};
use gp_lines::LineFault as PartFault;
use gp_replay::RunFault;
use gp_report::{
    arguments_report, encode_report, explain_report, few_lines_report, input_report, line_report,
    memory_report, no_line_report, run_report, verify_report, write_report,
};
use gp_script::ScriptFault;
use gp_verify::{Verdict, VerifyFault};

/// Each fault of a replay or of a storm, its line on standard error and the exit status.
const REPORTS: &[(RunFault, &'static str, u8)] = &[
    (RunFault::Read, "oltctl: read", 1),
    (RunFault::TooLong, "oltctl: too long", 1),
    (
        RunFault::Script(ScriptFault::Syntax),
        "oltctl: script 1 syntax",
        1,
    ),
    (
        RunFault::Script(ScriptFault::Shape),
        "oltctl: script 2 shape",
        1,
    ),
    (
        RunFault::Script(ScriptFault::Range),
        "oltctl: script 3 range",
        1,
    ),
    (
        RunFault::Script(ScriptFault::Serial),
        "oltctl: script 4 serial",
        1,
    ),
    (
        RunFault::Script(ScriptFault::Hex),
        "oltctl: script 5 hex",
        1,
    ),
    (
        RunFault::Script(ScriptFault::Duplicate),
        "oltctl: script 6 duplicate",
        1,
    ),
    (RunFault::OutOfMemory, "oltctl: memory", 3),
    (RunFault::Write, "oltctl: write", 4),
    (RunFault::Mismatch, "oltctl: mismatch", 5),
    (RunFault::JournalFull, "oltctl: journal full", 6),
];

/// The same of the faults of a code.
const LINE_REPORTS: &[(DecodeFault, &'static str, u8)] = &[
    (DecodeFault::Length, "oltctl: decode length", 1),
    (DecodeFault::Digit, "oltctl: decode digit", 1),
    (DecodeFault::Crc, "oltctl: decode crc", 1),
    (DecodeFault::Direction, "oltctl: decode direction", 1),
    (DecodeFault::OutOfMemory, "oltctl: memory", 3),
    (DecodeFault::Write, "oltctl: write", 4),
];

/// A verdict that ends a verification, with its line and its status.
const VERDICTS: &[(Verdict, &'static str, u8)] = &[
    (Verdict::NotALine, "oltctl: no line of a trace", 7),
    (Verdict::NoPort, "oltctl: no such port", 7),
    (Verdict::WrongNumber, "oltctl: not the next number", 7),
    (Verdict::TooLong, "oltctl: line too long", 7),
    (Verdict::NotAStep, "oltctl: not a run", 7),
];

#[test]
fn reports_of_replays(rt: HostRuntime) {
    for (fault, line, status) in REPORTS {
        assert!(rt; run_report(fault) == (*line, *status), "{line}");
    }
}

/// The report of a seventh line that can't be.
fn refused_report(verdict: Verdict) -> (&'static str, u8) {
    verify_report(&VerifyFault::Refused { line: 7, verdict })
}

#[test]
fn reports_of_verifications(rt: HostRuntime) {
    for (verdict, line, status) in VERDICTS {
        assert!(rt; refused_report(*verdict) == (*line, *status), "{line}");
    }
    let unended = VerifyFault::Unended { line: 7 };
    assert!(rt; verify_report(&unended) == ("oltctl: no line feed", 7));
}

#[test]
fn reports_of_codes(rt: HostRuntime) {
    for (fault, line, status) in LINE_REPORTS {
        assert!(rt; line_report(fault) == (*line, *status), "{line}");
    }
}

#[test]
fn other_reports(rt: HostRuntime) {
    assert!(rt; memory_report() == ("oltctl: memory", 3));
    assert!(rt; write_report() == ("oltctl: write", 4));
    assert!(rt; arguments_report() == ("oltctl: arguments", 2));
    assert!(rt; no_line_report() == ("oltctl: no line came", 7));
    assert!(rt; few_lines_report() == ("oltctl: too few lines", 7));
}

/// Why words have no code, and the line on standard error.
const WORDS: [(WordsFault, &'static str); 7] = [
    (WordsFault::Part(PartFault::Word), "oltctl: encode word"),
    (WordsFault::Part(PartFault::Number), "oltctl: encode number"),
    (WordsFault::Part(PartFault::Serial), "oltctl: encode serial"),
    (WordsFault::Part(PartFault::Hex), "oltctl: encode hex"),
    (WordsFault::Part(PartFault::Range), "oltctl: encode range"),
    (WordsFault::Part(PartFault::Long), "oltctl: encode long"),
    (WordsFault::Named, "oltctl: encode named"),
];

#[test]
fn reports_of_words(rt: HostRuntime) {
    for (fault, line) in &WORDS {
        assert!(rt; encode_report(fault) == (*line, 1), "{line}");
    }
}

/// Why lines were not answered, the line and the status.
const INPUTS: [(LinesFault, &'static str, u8); 4] = [
    (LinesFault::Read, "oltctl: read", 1),
    (
        LinesFault::Line(Unanswered::OutOfMemory),
        "oltctl: memory",
        3,
    ),
    (LinesFault::Line(Unanswered::Write), "oltctl: write", 4),
    (
        LinesFault::Line(Unanswered::Full),
        "oltctl: too many lines",
        1,
    ),
];

#[test]
fn reports_of_inputs(rt: HostRuntime) {
    for (fault, line, exit) in &INPUTS {
        assert!(rt; input_report(fault) == (*line, *exit), "{line}");
        let told = explain_report(&ExplainFault::Lines(*fault));
        assert!(rt; told == (*line, *exit), "{line}");
    }
}

/// The report of a seventh line that is none of a trace.
fn no_line_of_a_trace(why: NoLine) -> (&'static str, u8) {
    explain_report(&ExplainFault::Refused { line: 7, why })
}

#[test]
fn reports_of_lines(rt: HostRuntime) {
    assert!(rt; no_line_of_a_trace(NoLine::NotALine) == ("oltctl: no line of a trace", 1));
    assert!(rt; no_line_of_a_trace(NoLine::TooLong) == ("oltctl: line too long", 1));
}
