//! Logs in words, and what an audit says of one.
use gp_audit::{AuditForm, AuditOptions, Auditor, FindingChoice, RuleSet, audit_log};
use gp_encode::encode_words;
use gp_flow::LinesFault;
use gp_log::{Said, push_entry};
use gp_ploam::Mask;
use gp_ranging::Grant;
use gp_stream::{Sink, Source};
use std::alloc::{AllocError, Global};

/// How a log is audited, unless a test says otherwise: all findings as lines.
pub(crate) fn plain_options() -> AuditOptions {
    AuditOptions {
        mask: Mask::Plain,
        teqd: [311_040; 16],
        drift: 8,
        midway: false,
        told: FindingChoice {
            terminal: true,
            units: true,
            rules: RuleSet::all(),
        },
        form: AuditForm::Text,
        units: false,
    }
}

/// Gives the code of a message in words, its check octet wrong where `garbled`.
fn code_of(words: &str, upstream: bool, garbled: bool) -> Option<[u8; 13]> {
    let Ok(mut code) = encode_words(words.as_bytes(), upstream, Mask::Plain) else {
        return None;
    };
    if garbled {
        code[12] ^= 1;
    }
    Some(code)
}

/// Gives the message of a unit and its delay, which may stand behind ` @`.
fn answer_of(words: &str, garbled: bool) -> Option<Said> {
    let (words, delay) = match words.split_once(" @") {
        Some((words, digits)) => (words, Some(digits.parse().ok()?)),
        None => (words, None),
    };
    let code = code_of(words, true, garbled)?;
    Some(Said::Up { code, delay })
}

/// Gives a grant.
fn grant_of(words: &str) -> Option<Said> {
    let grant = match words.split_once(' ') {
        None => Grant::Search,
        Some(("range", onu)) => Grant::Range(onu.parse().ok()?),
        Some((_, onu)) => Grant::Poll(onu.parse().ok()?),
    };
    Some(Said::Grant(grant))
}

/// Gives what is said: `down WORDS`, `up WORDS [@DELAY]`, with `!` behind the first word where the code is garbled, or
/// `grant GRANT`.
fn said_of(text: &str) -> Option<Said> {
    let (side, words) = text.split_once(' ')?;
    match side {
        "down" => Some(Said::Down(code_of(words, false, false)?)),
        "down!" => Some(Said::Down(code_of(words, false, true)?)),
        "up" => answer_of(words, false),
        "up!" => answer_of(words, true),
        _ => grant_of(words),
    }
}

/// Makes a log of port 0 from lines `COPIES SAID`, each copy a line and a frame of its own. A line that isn't one is no
/// memory to the test.
pub(crate) fn log_of(alloc: Global, text: &str) -> Result<Vec<u8>, AllocError> {
    let mut log = Vec::new(alloc);
    let mut frame: u32 = 0;
    for line in text.lines() {
        let Some((copies, said)) = line.split_once(' ') else {
            return Err(AllocError);
        };
        let (Ok(copies), Some(said)) = (copies.parse::<u8>(), said_of(said)) else {
            return Err(AllocError);
        };
        for _ in 0..copies {
            frame = frame.wrapping_add(1);
            push_entry(&mut log, 0, u64::from(frame), &said)?;
        }
    }
    Ok(log)
}

/// Gives what is written of a log.
pub(crate) fn audited(
    alloc: Global,
    options: &AuditOptions,
    log: &[u8],
) -> Result<Vec<u8>, LinesFault> {
    let mut source = Source::endless(log);
    let mut sink = Sink::new(alloc, Vec::new(alloc))?;
    let mut auditor = Auditor::begin(alloc, options)?;
    audit_log(alloc, &mut source, &mut sink, &mut auditor)?;
    Ok(sink.into_inner())
}

/// Gives the findings of an audit alone, each as `N SIDE RULE` and a semicolon.
pub(crate) fn rules_in(alloc: Global, told: &str) -> Result<String, AllocError> {
    let mut rules = String::new(alloc);
    for line in told.lines() {
        let Some(line) = line.strip_prefix("line ") else {
            continue;
        };
        if let Some((number, rest)) = line.split_once(": ") {
            let rule = rest.split_once(": ").map(|(rule, _)| rule).unwrap_or(rest);
            rules.push_str(number)?;
            rules.push_str(" ")?;
            rules.push_str(rule)?;
            rules.push_str(";")?;
        }
    }
    Ok(rules)
}
