//! What became of a file, as a line.
ghost use Rattle.std.specs.Prelude.{◌≡◌, IfOk};
ghost use Rattle.std.specs.Option.{option_map};
ghost use Rattle.gp_outcome.specs.Line as spec;

use crate::outcome::Outcome;
use crate::verdict::{Verdict, path_of};
use crate::words::why;
use std::alloc::{AllocError, Global};

/// Gives the line of a file that did not pass, its line feed with it; None of one that did. Fails where memory was
/// refused.
pub fn verdict_line(alloc: Global, verdict: &Verdict) -> Result<Option<Vec<u8>>, AllocError>
    ensures { IfOk result (λ line. option_map (λ octets. octets.items) line ≡ spec.line_of verdict.now) }
{
    let Outcome::Failed(failure) = &verdict.outcome else {
        return Ok(None);
    };
    let path = path_of(alloc, verdict.folder.as_str(), verdict.file.as_str())?;
    let why = why(alloc, failure)?;
    let mut line = Vec::from_slice(alloc, path.as_bytes())?;
    line.extend_from_slice(b": ")?;
    line.extend_from_slice(why.as_slice())?;
    line.extend_from_slice(b"\n")?;
    Ok(Some(line))
}
