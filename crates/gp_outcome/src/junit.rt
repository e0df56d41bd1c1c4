//! What became of the files of a folder, as a suite of JUnit's XML.
ghost use Rattle.std.specs.Prelude.{◌≡◌, ◌++◌, ◌∷◌, [], IfOk, MatchOption, OnOk, codes, decimal};
ghost use Rattle.std.specs.List.{flat_map};
ghost use Rattle.gp_outcome.specs.Junit as spec;
ghost use Rattle.gp_outcome.specs.Tally.{nothing};

use crate::outcome::Outcome;
use crate::tally::Tally;
use crate::verdict::Verdict;
use crate::words::why;
use itoa::Buffer;
use std::alloc::{AllocError, Global};

/// What stands in an attribute for an octet that can't stand there as it is; None where it can. XML knows no other
/// control character than these, not even by its number.
fn escape_of(octet: u8) -> Option<&'static str>
    ensures { MatchOption result (spec.escaped octet ≡ octet ∷ []) (λ text. text.now ≡ spec.escaped octet) }
{
    match octet {
        b'&' => Some("&amp;"),
        b'<' => Some("&lt;"),
        b'>' => Some("&gt;"),
        b'"' => Some("&quot;"),
        b'\t' => Some("&#9;"),
        b'\n' => Some("&#10;"),
        b'\r' => Some("&#13;"),
        0..=31 => Some("?"),
        _ => None,
    }
}

/// Appends an octet within an attribute.
fn push_octet(out: &mut Vec<u8>, octet: u8) -> Result<(), AllocError>
    ensures { OnOk result (out.new.items ≡ out.old.items ++ spec.escaped octet) }
{
    match escape_of(octet) {
        Some(text) => out.extend_from_slice(text.as_bytes()),
        None => out.extend_from_slice(&[octet]),
    }
}

/// Appends the octets of a text within an attribute.
fn push_escaped(out: &mut Vec<u8>, text: &[u8]) -> Result<(), AllocError>
    ensures { OnOk result (out.new.items ≡ out.old.items ++ flat_map spec.escaped text.now) }
{
    'octets: for octet in text {
        push_octet(out, *octet)?;
    }
    Ok(())
}

/// Appends an attribute.
fn push_attribute(out: &mut Vec<u8>, name: &str, value: &[u8]) -> Result<(), AllocError>
    ensures { OnOk result (out.new.items ≡ out.old.items ++ spec.attribute name.now value.now) }
{
    out.extend_from_slice(b" ")?;
    out.extend_from_slice(name.as_bytes())?;
    out.extend_from_slice(b"=\"")?;
    push_escaped(out, value)?;
    out.extend_from_slice(b"\"")
}

/// Appends an attribute that is a number.
fn push_count(out: &mut Vec<u8>, name: &str, count: u64) -> Result<(), AllocError>
    ensures { OnOk result (out.new.items ≡ out.old.items ++ spec.attribute name.now (decimal count)) }
{
    let mut digits = Buffer::new();
    push_attribute(out, name, digits.format(count).as_bytes())
}

/// Appends what stands in the test case of a file, and its end.
fn push_outcome(alloc: Global, out: &mut Vec<u8>, outcome: &Outcome) -> Result<(), AllocError>
    ensures { OnOk result (out.new.items ≡ out.old.items ++ spec.outcome_text outcome.now) }
{
    match outcome {
        Outcome::Passed { .. } | Outcome::Refused => out.extend_from_slice(b"/>\n"),
        Outcome::Written => out.extend_from_slice(
            b">\n<skipped message=\"its .trace was written\"/>\n</testcase>\n",
        ),
        Outcome::Failed(failure) => {
            let why = why(alloc, failure)?;
            out.extend_from_slice(b">\n<failure")?;
            push_attribute(out, "message", why.as_slice())?;
            out.extend_from_slice(b"/>\n</testcase>\n")
        }
    }
}

/// Gives the name of a test case: that of the file; the folder's own where the file has no name.
fn case_name<'n>(folder: &'n str, file: &'n str) -> &'n str
    ensures { result.now ≡ spec.case_name folder.now file.now }
{
    if file.is_empty() { folder } else { file }
}

/// Appends the test case of a file: its class is the folder.
#[tactic(auto, unfolding(crate::specs::Junit::case_text))]
fn push_case(alloc: Global, out: &mut Vec<u8>, verdict: &Verdict) -> Result<(), AllocError>
    ensures { OnOk result (out.new.items ≡ out.old.items ++ spec.case_text verdict.now) }
{
    out.extend_from_slice(b"<testcase")?;
    let name = case_name(verdict.folder.as_str(), verdict.file.as_str());
    push_attribute(out, "classname", verdict.folder.as_bytes())?;
    push_attribute(out, "name", name.as_bytes())?;
    push_outcome(alloc, out, &verdict.outcome)
}

/// Appends how many files there are, how many failed, and of how many the trace was written.
fn push_counts(out: &mut Vec<u8>, tally: &Tally) -> Result<(), AllocError>
    ensures { OnOk result (out.new.items ≡ out.old.items ++ spec.counts_text tally.now) }
{
    let seen = tally.passed.saturating_add(tally.written);
    push_count(out, "tests", seen.saturating_add(tally.failed))?;
    push_count(out, "failures", tally.failed)?;
    push_count(out, "skipped", tally.written)
}

/// Appends how JUnit's XML begins, with the sum of all suites.
pub fn push_suites_begin(out: &mut Vec<u8>, tally: &Tally) -> Result<(), AllocError>
    ensures { OnOk result (out.new.items ≡ out.old.items ++ spec.begin_text tally.now) }
{
    out.extend_from_slice(b"<?xml version=\"1.0\" encoding=\"UTF-8\"?>\n<testsuites")?;
    push_counts(out, tally)?;
    out.extend_from_slice(b">\n")
}

/// Counts what became of files.
fn tally_of(verdicts: &[Verdict]) -> Tally
    ensures { result ≡ spec.all_counted nothing verdicts.now }
{
    let mut tally = Tally::new();
    'verdicts: for verdict in verdicts {
        tally.count(&verdict.outcome);
    }
    tally
}

/// Appends the test cases of files.
fn push_cases(alloc: Global, out: &mut Vec<u8>, verdicts: &[Verdict]) -> Result<(), AllocError>
    ensures { OnOk result (out.new.items ≡ out.old.items ++ flat_map spec.case_text verdicts.now) }
{
    'cases: for verdict in verdicts {
        push_case(alloc, out, verdict)?;
    }
    Ok(())
}

/// Appends how the suite of a folder begins, with the sum of its test cases.
#[tactic(auto, unfolding(crate::specs::Junit::suite_begin))]
fn push_suite_begin(out: &mut Vec<u8>, folder: &str, tally: &Tally) -> Result<(), AllocError>
    ensures { OnOk result (out.new.items ≡ out.old.items ++ spec.suite_begin folder.now tally.now) }
{
    out.extend_from_slice(b"<testsuite")?;
    push_attribute(out, "name", folder.as_bytes())?;
    push_counts(out, tally)?;
    out.extend_from_slice(b">\n")
}

/// Appends the suite of a folder: a test case for each of its files. Where memory is refused, a part of it may have
/// been appended.
pub fn push_suite(
    alloc: Global,
    out: &mut Vec<u8>,
    folder: &str,
    verdicts: &[Verdict],
) -> Result<(), AllocError>
    ensures { OnOk result (out.new.items ≡ out.old.items ++ spec.suite_text folder.now verdicts.now) }
{
    let tally = tally_of(verdicts);
    push_suite_begin(out, folder, &tally)?;
    push_cases(alloc, out, verdicts)?;
    out.extend_from_slice(b"</testsuite>\n")
}

/// Appends how it ends.
pub fn push_suites_end(out: &mut Vec<u8>) -> Result<(), AllocError>
    ensures { OnOk result (out.new.items ≡ out.old.items ++ codes "</testsuites>\n") }
{
    out.extend_from_slice(b"</testsuites>\n")
}
