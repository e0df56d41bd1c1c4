//! Scripts beside what they have to write; what is told of each, in each form.
use gp_compare::CompareError;
use gp_outcome::{
    Expected, Failure, Outcome, Tally, Verdict, judge, path_of, push_suite, push_suites_begin,
    push_suites_end, verdict_line, verdict_object,
};
use gp_stream::Source;
use std::alloc::{AllocError, Global};

const SCRIPT: &str = "licences = 1\n[[port]]\nadmit = []\n[[event]]\nport = 0\nframes = 3\n";

const TRACE: &str = "0 0 frame = ok\n0 1 frame = ok\n0 2 frame = ok\n";

const NO_EVENTS: &str = "licences = 1\n[[port]]\nadmit = []\n";

const LIGHT_ALONE: &str =
    "licences = 1\n[[port]]\ncycles = 1\nadmit = [\"ABCD00000001\"]\n[[unit]]\nserial = \"ABCD00000001\"\ndelay = 100000\n[[event]]\nunit = 0\nlight = false\n";

const NO_LINE: &str =
    "d/x.toml: a play of it writes no line, so nothing was compared; give it an [[event]] that does, as frames = 1\n";

const NO_SCRIPT: &str = "licences = 1\n[[port]]\nadmit = []\n[[event]]\nport = 7\nframes = 3\n";

/// A script, the trace or the faults that stand beside it, and what is told of it.
#[derive(Clone, Copy)]
struct Case {
    script: &'static str,
    trace: Option<&'static str>,
    faults: Option<&'static str>,
    told: &'static str,
}

const CASES: [Case; 12] = [
    Case {
        script: SCRIPT,
        trace: Some(TRACE),
        faults: None,
        told: "",
    },
    Case {
        script: SCRIPT,
        trace: Some("0 0 frame = ok\n0 1 frame = no\n"),
        faults: None,
        told: "d/x.toml: line 2 of its .trace, octet 13: expected \"0 1 frame = no\", got \"0 1 frame = ok\"\n",
    },
    Case {
        script: SCRIPT,
        trace: Some("0 0 frame = ok\n0 1 frame = ok\n0 2 frame = ok"),
        faults: None,
        told: "d/x.toml: line 3 of its .trace, octet 15: expected \"0 2 frame = ok\" with no line feed behind it, got \"0 2 frame = ok\"\n",
    },
    Case {
        script: SCRIPT,
        trace: Some(""),
        faults: None,
        told: "d/x.toml: line 1 of its .trace, octet 1: expected the end, got \"0 0 frame = ok\"\n",
    },
    Case {
        script: SCRIPT,
        trace: None,
        faults: Some("anything\n"),
        told: "d/x.toml: it is a script, but its .faults says that it is wrong\n",
    },
    Case {
        script: SCRIPT,
        trace: None,
        faults: None,
        told: "d/x.toml: nothing beside it to compare with, neither .trace nor .faults; --bless writes its .trace\n",
    },
    Case {
        script: NO_EVENTS,
        trace: Some(""),
        faults: None,
        told: NO_LINE,
    },
    Case {
        script: LIGHT_ALONE,
        trace: Some(""),
        faults: None,
        told: NO_LINE,
    },
    Case {
        script: NO_EVENTS,
        trace: Some("0 0 frame = ok\n"),
        faults: None,
        told: "d/x.toml: line 1 of its .trace, octet 1: expected \"0 0 frame = ok\", got the end\n",
    },
    Case {
        script: NO_SCRIPT,
        trace: None,
        faults: Some("event 0, port: 3 range, 0 to 0, line 5\n"),
        told: "",
    },
    Case {
        script: NO_SCRIPT,
        trace: None,
        faults: Some("event 0, port: 3 range, 0 to 0, line 5"),
        told: "d/x.toml: line 1 of its .faults, octet 39: expected \"event 0, port: 3 range, 0 to 0, line 5\" with no line feed behind it, got \"event 0, port: 3 range, 0 to 0, line 5\"\n",
    },
    Case {
        script: NO_SCRIPT,
        trace: Some(TRACE),
        faults: None,
        told: "d/x.toml: event 0, port: 3 range, 0 to 0, line 5\n",
    },
];

/// Gives what a script is judged by.
fn expected_of(case: &Case) -> Expected<&'static [u8]> {
    match (case.trace, case.faults) {
        (Some(trace), _) => Expected::Trace(Source::new(trace.as_bytes())),
        (None, Some(faults)) => Expected::Faults(Source::new(faults.as_bytes())),
        (None, None) => Expected::Nothing,
    }
}

/// Gives the name of the folder, and that of a file.
fn names(alloc: Global, file: &str) -> Result<(String, String), AllocError> {
    let folder = String::from_str(alloc, "d")?;
    let file = String::from_str(alloc, file)?;
    Ok((folder, file))
}

/// Gives an outcome the names of a file.
fn verdict_of(alloc: Global, file: &str, outcome: Outcome) -> Result<Verdict, AllocError> {
    let (folder, file) = names(alloc, file)?;
    Ok(Verdict {
        folder,
        file,
        outcome,
    })
}

/// Judges octets by what is at hand. Where that can't be read, which it always can, they were not played to their end.
fn judge_by(
    alloc: Global,
    octets: &[u8],
    expected: Expected<&'static [u8]>,
) -> Result<Outcome, AllocError> {
    match judge(alloc, octets, expected) {
        Ok(outcome) => Ok(outcome),
        Err(CompareError::Read(_)) => Ok(Outcome::Failed(Failure::Stopped)),
        Err(CompareError::OutOfMemory) => Err(AllocError),
    }
}

/// Judges a case.
fn verdict_on(alloc: Global, case: &Case) -> Result<Verdict, AllocError> {
    let outcome = judge_by(alloc, case.script.as_bytes(), expected_of(case))?;
    verdict_of(alloc, "x.toml", outcome)
}

/// Tells whether a line is this, or where there is none nothing is told; and whether there is one where that has to be.
fn is_line(line: &Option<Vec<u8>>, is_failed: bool, told: &str) -> bool {
    match line {
        Some(line) => is_failed && line.as_slice() == told.as_bytes(),
        None => !is_failed && told.is_empty(),
    }
}

/// Tells whether a verdict has this line, and one that fails has one.
fn has_line(alloc: Global, verdict: &Verdict, told: &str) -> Result<bool, AllocError> {
    let line = verdict_line(alloc, verdict)?;
    Ok(is_line(&line, verdict.outcome.is_failed(), told))
}

/// Tells whether a case is told so.
fn is_told(alloc: Global, case: &Case) -> Result<bool, AllocError> {
    let verdict = verdict_on(alloc, case)?;
    has_line(alloc, &verdict, case.told)
}

#[test]
fn what_fails_has_a_line(rt: HostRuntime) {
    for case in &CASES {
        assert!(rt; is_told(rt.alloc(), case) == Ok(true), "{}", case.told);
    }
}

/// Where a request for memory is refused, a script is not judged or not told of; else it is as with ample memory.
#[test]
fn memory_short_or_ample(rt: HostRuntime) {
    for case in &CASES {
        let Ok(right) = is_told(rt.alloc(), case) else {
            return;
        };
        assert!(rt; right, "{}", case.told);
    }
}

/// Judges a script by a trace.
fn judged(alloc: Global, trace: &'static str) -> Result<Outcome, AllocError> {
    judge_by(
        alloc,
        SCRIPT.as_bytes(),
        Expected::Trace(Source::new(trace.as_bytes())),
    )
}

/// Tells whether a verdict has this object.
fn has_object(alloc: Global, verdict: &Verdict, wanted: &str) -> Result<bool, AllocError> {
    let object = verdict_object(alloc, verdict)?;
    Ok(object.as_slice() == wanted.as_bytes())
}

/// Tells whether an outcome has this object.
fn is_object(alloc: Global, outcome: Outcome, wanted: &str) -> Result<bool, AllocError> {
    let verdict = verdict_of(alloc, "x", outcome)?;
    has_object(alloc, &verdict, wanted)
}

/// Tells whether the script has this object, judged by a trace.
fn is_judged(alloc: Global, trace: &'static str, wanted: &str) -> Result<bool, AllocError> {
    let outcome = judged(alloc, trace)?;
    is_object(alloc, outcome, wanted)
}

/// Traces, and the object of the script that is judged by each.
const JUDGED: [(&'static str, &'static str); 2] = [
    (
        TRACE,
        "{\"file\":\"d/x\",\"ok\":true,\"outcome\":\"passed\",\"lines\":3}\n",
    ),
    (
        "0 0 frame = ok\n",
        "{\"file\":\"d/x\",\"ok\":false,\"outcome\":\"failed\",\"why\":\"line 2 of its .trace, octet 1: expected the end, got \\\"0 1 frame = ok\\\"\",\"line\":2,\"octet\":1,\"expected\":null,\"got\":\"0 1 frame = ok\"}\n",
    ),
];

#[test]
fn each_has_an_object(rt: HostRuntime) {
    for (trace, wanted) in &JUDGED {
        assert!(rt;
            is_judged(rt.alloc(), trace, wanted) == Ok(true),
            "{wanted}"
        );
    }
    let wanted = "{\"file\":\"d/x\",\"ok\":true,\"outcome\":\"refused\"}\n";
    assert!(rt; is_object(rt.alloc(), Outcome::Refused, wanted) == Ok(true));
    let wanted = "{\"file\":\"d/x\",\"ok\":true,\"outcome\":\"written\"}\n";
    assert!(rt; is_object(rt.alloc(), Outcome::Written, wanted) == Ok(true));
    let none = Outcome::Failed(Failure::NoScript);
    let wanted =
        "{\"file\":\"d/x\",\"ok\":false,\"outcome\":\"failed\",\"why\":\"no script beside it, whose name ends in .toml\"}\n";
    assert!(rt; is_object(rt.alloc(), none, wanted) == Ok(true));
}

const SUITE: &str = "\
<?xml version=\"1.0\" encoding=\"UTF-8\"?>
<testsuites tests=\"4\" failures=\"2\" skipped=\"1\">
<testsuite name=\"d\" tests=\"4\" failures=\"2\" skipped=\"1\">
<testcase classname=\"d\" name=\"a&amp;&lt;&gt;.toml\"/>
<testcase classname=\"d\" name=\"b.toml\">
<skipped message=\"its .trace was written\"/>
</testcase>
<testcase classname=\"d\" name=\"c.toml\">
<failure message=\"line 1 of its .trace, octet 1: expected the end, got &quot;0 0 frame = ok&quot;\"/>
</testcase>
<testcase classname=\"d\" name=\"d\">
<failure message=\"no script in it, whose name ends in .toml\"/>
</testcase>
</testsuite>
</testsuites>
";

/// Adds what became of a file.
fn push_verdict(
    verdicts: &mut Vec<Verdict>,
    alloc: Global,
    file: &str,
    outcome: Outcome,
) -> Result<(), AllocError> {
    let verdict = verdict_of(alloc, file, outcome)?;
    verdicts.push(verdict)?;
    Ok(())
}

/// Adds what became of the files of a folder.
fn push_verdicts(verdicts: &mut Vec<Verdict>, alloc: Global) -> Result<(), AllocError> {
    push_verdict(verdicts, alloc, "a&<>.toml", Outcome::Refused)?;
    push_verdict(verdicts, alloc, "b.toml", Outcome::Written)?;
    let outcome = judged(alloc, "")?;
    push_verdict(verdicts, alloc, "c.toml", outcome)?;
    let none = Outcome::Failed(Failure::NoScripts);
    push_verdict(verdicts, alloc, "", none)
}

/// What became of the files of a folder.
fn verdicts(alloc: Global) -> Result<Vec<Verdict>, AllocError> {
    let mut verdicts = Vec::new(alloc);
    push_verdicts(&mut verdicts, alloc)?;
    Ok(verdicts)
}

/// Counts them.
fn tally_of(verdicts: &[Verdict]) -> Tally {
    let mut tally = Tally::new();
    for verdict in verdicts {
        tally.count(&verdict.outcome);
    }
    tally
}

/// Writes them as a suite.
fn push_folder(
    out: &mut Vec<u8>,
    alloc: Global,
    verdicts: &[Verdict],
    tally: &Tally,
) -> Result<(), AllocError> {
    push_suites_begin(out, tally)?;
    push_suite(alloc, out, "d", verdicts)?;
    push_suites_end(out)
}

/// Tells whether they are this suite.
fn is_suite(alloc: Global, verdicts: &[Verdict], tally: &Tally) -> Result<bool, AllocError> {
    let mut out = Vec::new(alloc);
    push_folder(&mut out, alloc, verdicts, tally)?;
    Ok(out.as_slice() == SUITE.as_bytes())
}

/// Tells whether that is so of the folder.
fn is_folder(alloc: Global) -> Result<bool, AllocError> {
    let verdicts = verdicts(alloc)?;
    is_suite(alloc, &verdicts, &tally_of(&verdicts))
}

/// Counts the files of the folder.
fn tally(alloc: Global) -> Result<Tally, AllocError> {
    let verdicts = verdicts(alloc)?;
    Ok(tally_of(&verdicts))
}

/// Tells whether its counts are this line.
fn is_tally_line(alloc: Global) -> Result<bool, AllocError> {
    let tally = tally(alloc)?;
    let line = tally.line(alloc)?;
    Ok(line.as_slice() == b"1 passed, 1 written, 2 failed\n".as_slice())
}

/// Tells whether they are this object.
fn is_tally_object(alloc: Global) -> Result<bool, AllocError> {
    let tally = tally(alloc)?;
    let object = tally.object(alloc)?;
    Ok(object.as_slice() == b"{\"passed\":1,\"written\":1,\"failed\":2}\n".as_slice())
}

#[test]
fn a_folder_is_a_suite(rt: HostRuntime) {
    assert!(rt; is_folder(rt.alloc()) == Ok(true));
    assert!(rt; is_tally_line(rt.alloc()) == Ok(true));
    assert!(rt; is_tally_object(rt.alloc()) == Ok(true));
}

/// Tells whether a folder and a file have this path.
fn is_path(alloc: Global, folder: &str, file: &str, wanted: &str) -> Result<bool, AllocError> {
    let path = path_of(alloc, folder, file)?;
    Ok(path.as_str() == wanted)
}

#[test]
fn paths_are_joined_by_one_slash(rt: HostRuntime) {
    for (folder, file, wanted) in [
        ("d", "x", "d/x"),
        ("d/", "x", "d/x"),
        ("", "x", "x"),
        ("d", "", "d"),
    ] {
        let path = is_path(rt.alloc(), folder, file, wanted);
        assert!(rt; path == Ok(true), "{wanted}");
    }
}
