//! What became of a file, as a JSON object.
ghost use Rattle.std.specs.Prelude.{◌≡◌, ◌++◌, IfOk, OnOk, decimal};
ghost use Rattle.gp_outcome.specs.Object as spec;

use crate::outcome::{Failure, Outcome};
use crate::verdict::{Verdict, path_of};
use crate::words::{is_no_line, why};
use gp_compare::{Difference, ShownLine};
use gp_json::{push_quoted, quoted_text};
use itoa::Buffer;
use std::alloc::{AllocError, Global};
use std::str;

/// The fields of an object.
#[derive(Drop)]
struct Fields {
    alloc: Global,
    octets: Vec<u8>,
}

impl Fields {
    /// Appends what is JSON as it stands.
    fn plain(&mut self, text: &str) -> Result<(), AllocError>
        ensures { OnOk result (self.new.octets.items ≡ self.old.octets.items ++ text.now) }
    {
        self.octets.extend_from_slice(text.as_bytes())
    }

    /// Appends a number.
    fn number(&mut self, number: u64) -> Result<(), AllocError>
        ensures { OnOk result (self.new.octets.items ≡ self.old.octets.items ++ decimal number) }
    {
        let mut digits = Buffer::new();
        self.octets
            .extend_from_slice(digits.format(number).as_bytes())
    }

    /// Appends a text; where it is none in UTF-8, each octet of it that is no printable ASCII by its number.
    #[tactic(auto, using(crate::proofs::ObjectLemmas::text_utf8, crate::proofs::ObjectLemmas::text_other))]
    fn text(&mut self, octets: &[u8]) -> Result<(), AllocError>
        ensures { OnOk result (self.new.octets.items ≡ self.old.octets.items ++ spec.text_of octets.now) }
    {
        match str::from_utf8(octets) {
            Ok(text) => {
                let quoted = quoted_text(self.alloc, text)?;
                self.octets.extend_from_slice(quoted.as_slice())
            }
            Err(_) => push_quoted(&mut self.octets, octets),
        }
    }

    /// Appends a line that is shown; null, where there is no such line.
    fn shown(&mut self, line: &ShownLine) -> Result<(), AllocError>
        ensures { OnOk result (self.new.octets.items ≡ self.old.octets.items ++ spec.shown_value line.now) }
    {
        if is_no_line(line) {
            return self.plain("null");
        }
        push_quoted(&mut self.octets, line.octets.as_slice())
    }

    /// Appends where two texts differ, and the line on both sides.
    fn difference(&mut self, difference: &Difference) -> Result<(), AllocError>
        ensures { OnOk result
            (self.new.octets.items ≡ self.old.octets.items ++ spec.difference_fields difference.now) }
    {
        self.plain(",\"line\":")?;
        self.number(difference.line)?;
        self.plain(",\"octet\":")?;
        self.number(difference.octet)?;
        self.plain(",\"expected\":")?;
        self.shown(&difference.expected)?;
        self.plain(",\"got\":")?;
        self.shown(&difference.got)
    }

    /// Appends where it differs, where it does.
    fn difference_of(&mut self, failure: &Failure) -> Result<(), AllocError>
        ensures { OnOk result (self.new.octets.items ≡ self.old.octets.items ++ spec.fields_if failure.now) }
    {
        match failure {
            Failure::OtherTrace(difference) | Failure::OtherFault(difference) => {
                self.difference(difference)
            }
            _ => Ok(()),
        }
    }

    /// Appends that something did not pass, for this.
    #[tactic(auto, unfolding(crate::specs::Object::why_fields))]
    fn why(&mut self, why: &[u8]) -> Result<(), AllocError>
        ensures { OnOk result (self.new.octets.items ≡ self.old.octets.items ++ spec.why_fields why.now) }
    {
        self.plain(",\"ok\":false,\"outcome\":\"failed\",\"why\":")?;
        self.text(why)
    }

    /// Appends why something did not pass.
    fn failure(&mut self, failure: &Failure) -> Result<(), AllocError>
        ensures { OnOk result (self.new.octets.items ≡ self.old.octets.items ++ spec.failure_fields failure.now) }
    {
        let why = why(self.alloc, failure)?;
        self.why(why.as_slice())?;
        self.difference_of(failure)
    }

    /// Appends that it passed, and how many lines its trace has.
    #[tactic(auto, unfolding(crate::specs::Object::passed_fields))]
    fn passed(&mut self, lines: u64) -> Result<(), AllocError>
        ensures { OnOk result (self.new.octets.items ≡ self.old.octets.items ++ spec.passed_fields lines) }
    {
        self.plain(",\"ok\":true,\"outcome\":\"passed\",\"lines\":")?;
        self.number(lines)
    }

    /// Appends what became of a file.
    fn outcome(&mut self, outcome: &Outcome) -> Result<(), AllocError>
        ensures { OnOk result (self.new.octets.items ≡ self.old.octets.items ++ spec.outcome_fields outcome.now) }
    {
        match outcome {
            Outcome::Passed { lines } => self.passed(*lines),
            Outcome::Refused => self.plain(",\"ok\":true,\"outcome\":\"refused\""),
            Outcome::Written => self.plain(",\"ok\":true,\"outcome\":\"written\""),
            Outcome::Failed(failure) => self.failure(failure),
        }
    }
}

/// Gives what became of a file as a JSON object, with a line feed behind it. Fails where memory was refused.
///
/// Its fields are `file`, `ok` and `outcome`, which is `passed`, `refused`, `written` or `failed`; of one that passed
/// `lines`; of one that failed `why`, and where a line differs `line`, `octet`, `expected` and `got`, where null stands
/// for the end.
pub fn verdict_object(alloc: Global, verdict: &Verdict) -> Result<Vec<u8>, AllocError>
    ensures { IfOk result (λ object. object.items ≡ spec.object_of verdict.now) }
{
    let path = path_of(alloc, verdict.folder.as_str(), verdict.file.as_str())?;
    let mut fields = Fields {
        alloc,
        octets: Vec::new(alloc),
    };
    fields.plain("{\"file\":")?;
    fields.text(path.as_bytes())?;
    fields.outcome(&verdict.outcome)?;
    fields.plain("}\n")?;
    Ok(fields.octets)
}
