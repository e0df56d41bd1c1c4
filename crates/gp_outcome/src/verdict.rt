//! What became of a file, with its names.
ghost use Rattle.std.specs.Prelude.{◌≡◌, IfOk, string_bytes};
ghost use Rattle.gp_outcome.specs.Line as spec;

use crate::outcome::Outcome;
use std::alloc::{AllocError, Global};

/// What became of a file.
#[derive(Debug, Drop)]
pub struct Verdict {
    /// The folder, as it was named.
    pub folder: String,
    /// The name of the file in the folder; empty where the folder itself is meant.
    pub file: String,
    /// What became of it.
    pub outcome: Outcome,
}

/// Tells whether a folder's name is empty, or ends in a slash.
fn is_joined(folder: &[u8]) -> bool
    ensures { result ≡ spec.is_joined folder.now }
{
    match folder {
        [] => true,
        [octet] => *octet == b'/',
        [_, rest @ ..] => is_joined(rest),
    }
}

/// Gives the path of a file in a folder; the folder's own where the name is empty.
pub fn path_of(alloc: Global, folder: &str, file: &str) -> Result<String, AllocError>
    ensures { IfOk result (λ path. string_bytes path ≡ spec.path_of folder.now file.now) }
{
    if file.is_empty() {
        return String::from_str(alloc, folder);
    }
    if is_joined(folder.as_bytes()) {
        format!(in alloc; "{folder}{file}")
    } else {
        format!(in alloc; "{folder}/{file}")
    }
}
