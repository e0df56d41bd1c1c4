//! The names of a folder's files are gone through.
ghost use Rattle.std.specs.Prelude.{◌≡◌, ◌++◌, IfOk, OnOk, map, option_map, string_bytes};
ghost use Rattle.gp_folder.specs.Folder as spec;
ghost use Rattle.gp_folder.specs.Names.{is_named, stem};

use crate::case::{Beside, Case};
use crate::part::Part;
use std::alloc::{AllocError, Global};

/// A file beside which there is no script.
#[derive(Debug, Drop)]
pub struct Stray {
    /// What it is.
    pub part: Part,
    /// The name of the file, without the ending.
    pub name: String,
}

/// Gives the name of a file of this kind without its ending; None where it is of another kind.
fn stem_of(part: Part, file: &str) -> Option<&str>
    ensures { option_map (λ name. name.now) result ≡ stem part file.now }
{
    file.strip_suffix(part.ending())
}

/// Tells whether a file is the one of this kind with this name.
fn is_part(file: &str, name: &str, part: Part) -> bool
    ensures { result ≡ is_named name.now (stem part file.now) }
{
    match stem_of(part, file) {
        Some(stem) => stem == name,
        None => false,
    }
}

/// Tells whether there is a file of this kind with this name.
fn has_part(files: &[String], name: &str, part: Part) -> bool
    ensures { result ≡ spec.has_part files.now name.now part }
{
    files.iter().any(|file| is_part(file.as_str(), name, part))
}

/// What stands beside a script, by whether its trace and its list of faults are there.
fn beside_by(has_trace: bool, has_faults: bool) -> Beside
    ensures { result ≡ spec.beside_by has_trace has_faults }
{
    match (has_trace, has_faults) {
        (false, false) => Beside::Nothing,
        (true, false) => Beside::Trace,
        (false, true) => Beside::Faults,
        (true, true) => Beside::Both,
    }
}

/// What stands beside the script of this name.
fn beside_of(files: &[String], name: &str) -> Beside
    ensures { result ≡ spec.beside files.now name.now }
{
    beside_by(
        has_part(files, name, Part::Trace),
        has_part(files, name, Part::Faults),
    )
}

/// Appends a file as a case, if it is a script.
fn push_case(
    alloc: Global,
    cases: &mut Vec<Case>,
    files: &[String],
    file: &String,
) -> Result<(), AllocError>
    ensures { OnOk result (map spec.case_view cases.new.items
        ≡ map spec.case_view cases.old.items ++ spec.case_in files.now file.now) }
{
    if let Some(stem) = stem_of(Part::Script, file.as_str()) {
        let name = String::from_str(alloc, stem)?;
        let beside = beside_of(files, stem);
        cases.push(Case { name, beside })?;
    }
    Ok(())
}

/// Gives the scripts among the files of a folder, in the order of their names there, each with what stands beside it.
/// Fails where memory was refused.
pub fn cases_of(alloc: Global, files: &[String]) -> Result<Vec<Case>, AllocError>
    ensures { IfOk result (λ cases. map spec.case_view cases.items ≡ spec.cases_of files.now) }
{
    let mut cases = Vec::new(alloc);
    'files: for file in files {
        push_case(alloc, &mut cases, files, file)?;
    }
    Ok(cases)
}

/// Appends a file of this kind, if it is one and there is no script beside it.
fn push_stray(
    alloc: Global,
    strays: &mut Vec<Stray>,
    files: &[String],
    part: Part,
    file: &String,
) -> Result<(), AllocError>
    ensures { OnOk result (map spec.stray_view strays.new.items
        ≡ map spec.stray_view strays.old.items ++ spec.stray_part files.now part file.now) }
{
    let Some(stem) = stem_of(part, file.as_str()) else {
        return Ok(());
    };
    if has_part(files, stem, Part::Script) {
        return Ok(());
    }
    let name = String::from_str(alloc, stem)?;
    strays.push(Stray { part, name })?;
    Ok(())
}

/// Appends a file, if it is a trace or a list of faults without a script.
fn push_strays(
    alloc: Global,
    strays: &mut Vec<Stray>,
    files: &[String],
    file: &String,
) -> Result<(), AllocError>
    ensures { OnOk result (map spec.stray_view strays.new.items
        ≡ map spec.stray_view strays.old.items ++ spec.stray_in files.now file.now) }
{
    push_stray(alloc, strays, files, Part::Trace, file)?;
    push_stray(alloc, strays, files, Part::Faults, file)?;
    Ok(())
}

/// Gives the traces and the lists of faults among the files of a folder beside which there is no script, in the order
/// of their names there. Fails where memory was refused.
pub fn strays_of(alloc: Global, files: &[String]) -> Result<Vec<Stray>, AllocError>
    ensures { IfOk result (λ strays. map spec.stray_view strays.items ≡ spec.strays_of files.now) }
{
    let mut strays = Vec::new(alloc);
    'files: for file in files {
        push_strays(alloc, &mut strays, files, file)?;
    }
    Ok(strays)
}
