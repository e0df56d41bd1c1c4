//! The scripts of folders, and what stands beside them.
use crate::reporting::cause_text;
use gp_folder::{Case, Part, Stray, cases_of, strays_of};
use gp_outcome::{Failure, Outcome, Verdict};
use std::alloc::{AllocError, Global};
use std::io::ErrorKind;
use std::rt::Files;
use std::{fs, io};

/// A file that is told of, and the script that it is, where it has to be judged. What became of one that was not judged
/// yet is that memory ran out.
#[derive(Drop)]
pub(crate) struct Slot {
    pub(crate) verdict: Verdict,
    pub(crate) case: Option<Case>,
}

/// A file, or a folder, that is told of without being read.
fn settled(alloc: Global, folder: &str, file: &str, failure: Failure) -> Result<Slot, AllocError> {
    let verdict = Verdict {
        folder: String::from_str(alloc, folder)?,
        file: String::from_str(alloc, file)?,
        outcome: Outcome::Failed(failure),
    };
    Ok(Slot {
        verdict,
        case: None,
    })
}

/// A script that has to be judged.
fn pending(alloc: Global, folder: &str, case: Case) -> Result<Slot, AllocError> {
    let name = case.name.as_str();
    let ending = Part::Script.ending();
    let verdict = Verdict {
        folder: String::from_str(alloc, folder)?,
        file: format!(in alloc; "{name}{ending}")?,
        outcome: Outcome::Failed(Failure::OutOfMemory),
    };
    Ok(Slot {
        verdict,
        case: Some(case),
    })
}

/// A trace, or a list of faults, beside which there is no script.
fn stray_slot(alloc: Global, folder: &str, stray: &Stray) -> Result<Slot, AllocError> {
    let name = stray.name.as_str();
    let ending = stray.part.ending();
    let file = format!(in alloc; "{name}{ending}")?;
    settled(alloc, folder, file.as_str(), Failure::NoScript)
}

/// Why a name of a folder was not read.
fn unlisted(alloc: Global, error: &io::Error) -> Result<Failure, AllocError> {
    let cause = match error.kind() {
        ErrorKind::InvalidFilename => String::from_str(alloc, "a name in it is no UTF-8")?,
        _ => {
            let cause = cause_text(alloc, error)?;
            format!(in alloc; "can't be read: {cause}")?
        }
    };
    Ok(Failure::Unlisted { cause })
}

/// Lists the names in a folder, in their order. What was not read is told of.
fn names_in<R: AllocGlobal + Files + Clone + Drop>(
    rt: &R,
    folder: &str,
    slots: &mut Vec<Slot>,
) -> Result<Vec<String>, AllocError> {
    let alloc = rt.alloc();
    let mut names = Vec::new(alloc);
    let entries = match fs::read_dir(rt, folder) {
        Ok(entries) => entries,
        Err(error) => {
            slots.push(settled(alloc, folder, "", unlisted(alloc, &error)?)?)?;
            return Ok(names);
        }
    };
    for entry in entries {
        match entry {
            Ok(entry) => names.push(String::from_str(alloc, entry.file_name())?)?,
            Err(error) => slots.push(settled(alloc, folder, "", unlisted(alloc, &error)?)?)?,
        }
    }
    names.sort()?;
    Ok(names)
}

/// Appends the scripts of a folder, and what else there is told of.
pub(crate) fn list_folder<R: AllocGlobal + Files + Clone + Drop>(
    rt: &R,
    folder: &str,
    slots: &mut Vec<Slot>,
) -> Result<(), AllocError> {
    let alloc = rt.alloc();
    let known = slots.len();
    let names = names_in(rt, folder, slots)?;
    let cases = cases_of(alloc, names.as_slice())?;
    if cases.is_empty() && slots.len() == known {
        slots.push(settled(alloc, folder, "", Failure::NoScripts)?)?;
    }
    for case in cases {
        slots.push(pending(alloc, folder, case)?)?;
    }
    for stray in strays_of(alloc, names.as_slice())? {
        slots.push(stray_slot(alloc, folder, &stray)?)?;
    }
    Ok(())
}
