//! Which files of a folder belong together.
use gp_folder::{Beside, Case, Stray, cases_of, strays_of};
use std::alloc::{AllocError, Global};

/// Adds names.
fn push_names(all: &mut Vec<String>, alloc: Global, names: &[&str]) -> Result<(), AllocError> {
    for name in names {
        let name = String::from_str(alloc, name)?;
        all.push(name)?;
    }
    Ok(())
}

/// Gives names as a folder gives them.
fn names(alloc: Global, names: &[&str]) -> Result<Vec<String>, AllocError> {
    let mut all = Vec::new(alloc);
    push_names(&mut all, alloc, names)?;
    Ok(all)
}

/// What stands beside a script, as a letter.
fn letter(beside: Beside) -> &'static str {
    match beside {
        Beside::Nothing => ":-;",
        Beside::Trace => ":t;",
        Beside::Faults => ":f;",
        Beside::Both => ":b;",
    }
}

/// Gives cases as `NAME:LETTER;`, where the letter says what stands beside it.
fn push_cases(told: &mut String, cases: &[Case]) -> Result<(), AllocError> {
    for case in cases {
        told.push_str(case.name.as_str())?;
        told.push_str(letter(case.beside))?;
    }
    Ok(())
}

/// The cases of a folder.
fn cases(alloc: Global, files: &[&str]) -> Result<Vec<Case>, AllocError> {
    let files = names(alloc, files)?;
    cases_of(alloc, files.as_slice())
}

/// Tells whether cases are these.
fn are_told(alloc: Global, cases: &[Case], wanted: &str) -> Result<bool, AllocError> {
    let mut told = String::new(alloc);
    push_cases(&mut told, cases)?;
    Ok(told.as_str() == wanted)
}

/// Tells whether a folder has these cases.
fn are_cases(alloc: Global, files: &[&str], wanted: &str) -> Result<bool, AllocError> {
    let cases = cases(alloc, files)?;
    are_told(alloc, &cases, wanted)
}

/// Gives files without a script, each with a semicolon.
fn push_strays(told: &mut String, strays: &[Stray]) -> Result<(), AllocError> {
    for stray in strays {
        told.push_str(stray.name.as_str())?;
        told.push_str(stray.part.ending())?;
        told.push_str(";")?;
    }
    Ok(())
}

/// The files of a folder without a script.
fn strays(alloc: Global, files: &[&str]) -> Result<Vec<Stray>, AllocError> {
    let files = names(alloc, files)?;
    strays_of(alloc, files.as_slice())
}

/// Tells whether files without a script are these.
fn are_named(alloc: Global, strays: &[Stray], wanted: &str) -> Result<bool, AllocError> {
    let mut told = String::new(alloc);
    push_strays(&mut told, strays)?;
    Ok(told.as_str() == wanted)
}

/// Tells whether a folder has these files without a script.
fn are_strays(alloc: Global, files: &[&str], wanted: &str) -> Result<bool, AllocError> {
    let strays = strays(alloc, files)?;
    are_named(alloc, &strays, wanted)
}

#[test]
fn each_script_is_a_case(rt: HostRuntime) {
    let files = [
        "a.faults", "a.toml", "b.toml", "b.trace", "c.faults", "c.toml", "c.trace", "d.toml",
        "e.log",
    ];
    assert!(rt; are_cases(rt.alloc(), &files, "a:f;b:t;c:b;d:-;") == Ok(true));
    assert!(rt; are_strays(rt.alloc(), &files, "") == Ok(true));
}

#[test]
fn names_that_only_begin_alike_are_others(rt: HostRuntime) {
    let files = [
        "one.toml",
        "one-more.trace",
        "on.trace",
        "one.toml.trace",
        "one.traces",
    ];
    let wanted = "one-more.trace;on.trace;one.toml.trace;";
    assert!(rt; are_cases(rt.alloc(), &files, "one:-;") == Ok(true));
    assert!(rt; are_strays(rt.alloc(), &files, wanted) == Ok(true));
}

#[test]
fn endings_count_as_they_are_spelled(rt: HostRuntime) {
    let files = [".toml", ".trace", "toml", "x.TOML", "y.toml ", "z.findings"];
    assert!(rt; are_cases(rt.alloc(), &files, ":t;") == Ok(true));
    assert!(rt; are_strays(rt.alloc(), &files, "") == Ok(true));
    assert!(rt; are_cases(rt.alloc(), &[], "") == Ok(true));
}
