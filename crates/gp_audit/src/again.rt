//! A line told again with its codes in words, and with what would be right of a wrong check octet.
ghost use Rattle.std.specs.Prelude.{◌≡◌, ◌++◌, ℕ, List, [], IfOk, OnOk, codes};
ghost use Rattle.gp_audit.specs.Again.{TellsAgain, TellsCode, TellsRead, TellsSaid, wanted_note};
ghost use Rattle.gp_audit.specs.Places.{IsTraced};

use crate::options::AuditForm;
use gp_decode::{DecodeFault, push_check_note, push_words_of};
use gp_explain::{Form, Telling};
use gp_log::{LogFault, LogLine, Said};
use gp_ploam::Mask;
use std::alloc::{AllocError, Global};
use std::marker::Model;

/// Tells lines again, in words. Contracts see the mask of their codes.
#[derive(Drop)]
pub(crate) struct Again {
    mask: Mask,
    /// Tells lines of a trace.
    telling: Telling,
    /// What would be right of a check octet.
    note: Vec<u8>,
}

impl Model for Again {
    ghost use Rattle.std.specs.Prelude.{◌≡◌, false};
    ghost use Rattle.gp_ploam.specs.declared.check.Mask.{Mask};
    ghost use Rattle.gp_explain.specs.declared.form.Form.TheVariants.{Words};

    ghost Value = { Mask };

    ghost view = { λ a. a.mask };

    ghost invariant = { λ a. (a.telling.mask ≡ a.mask) × (a.telling.form ≡ Words) × (a.telling.timed ≡ false) };
}

/// Appends what would be right of a code whose check octet is wrong, and closes its bracket.
fn push_wanted(
    out: &mut Vec<u8>,
    note: &mut Vec<u8>,
    code: &[u8; 13],
    mask: Mask,
) -> Result<(), AllocError>
    ensures { OnOk result (out.new.items ≡ out.old.items ++ (wanted_note mask code.now ++ codes ")")) }
{
    note.clear();
    push_check_note(note, code, mask)?;
    out.extend_from_slice(&note.as_slice()[2..])?;
    out.extend_from_slice(b")")
}

/// Appends a code in words, or what would be right of it, in parentheses.
fn push_code(
    out: &mut Vec<u8>,
    note: &mut Vec<u8>,
    code: &[u8; 13],
    upstream: bool,
    mask: Mask,
) -> Result<(), AllocError>
    ensures { OnOk result ((told : List ℕ) × TellsCode upstream mask code.now told
        × (out.new.items ≡ out.old.items ++ told)) }
{
    out.extend_from_slice(b" (")?;
    match push_words_of(out, code, upstream, mask) {
        Ok(()) => out.extend_from_slice(b")"),
        Err(DecodeFault::Crc) => push_wanted(out, note, code, mask),
        Err(_) => Err(AllocError),
    }
}

/// Appends what stands behind a line of a log.
fn push_said(
    out: &mut Vec<u8>,
    note: &mut Vec<u8>,
    said: &Said,
    mask: Mask,
) -> Result<(), AllocError>
    ensures { OnOk result ((told : List ℕ) × TellsSaid mask said.now told
        × (out.new.items ≡ out.old.items ++ told)) }
{
    match said {
        Said::Down(code) => push_code(out, note, code, false, mask),
        Said::Up { code, .. } => push_code(out, note, code, true, mask),
        Said::Grant(_) => Ok(()),
    }
}

/// Appends a line as it is.
fn push_plain(out: &mut Vec<u8>, text: &[u8]) -> Result<(), AllocError>
    ensures { OnOk result (out.new.items ≡ out.old.items ++ (text.now ++ codes "\n")) }
{
    out.extend_from_slice(text)?;
    out.extend_from_slice(b"\n")
}

impl Again {
    /// Tells lines whose codes have this mask.
    pub(crate) fn begin(alloc: Global, mask: Mask) -> Again
        ensures { result ≡ mask }
    {
        Again {
            mask,
            telling: Telling::new(alloc, mask, Form::Words, false),
            note: Vec::new(alloc),
        }
    }

    /// Tells a line again into an empty buffer, where lines are.
    pub(crate) fn tell_in(
        &mut self,
        form: AuditForm,
        text: &[u8],
        read: &Result<LogLine, LogFault>,
        out: &mut Vec<u8>,
    ) -> Result<(), AllocError>
        requires empty { out.old.items ≡ [] }
        requires traced { IsTraced text.now read.now }
        ensures told { OnOk result (TellsAgain form self.old text.now read.now out.new.items) }
        ensures mask { self.new ≡ self.old }
    {
        match form {
            AuditForm::Words => self.tell(text, read, out),
            AuditForm::Text | AuditForm::Json => Ok(()),
        }
    }

    /// Tells a line again into an empty buffer.
    fn tell(
        &mut self,
        text: &[u8],
        read: &Result<LogLine, LogFault>,
        out: &mut Vec<u8>,
    ) -> Result<(), AllocError>
        requires empty { out.old.items ≡ [] }
        requires traced { IsTraced text.now read.now }
        ensures told { OnOk result (TellsRead self.old text.now read.now out.new.items) }
        ensures mask { self.new ≡ self.old }
    {
        match read {
            Ok(LogLine::Log { said, .. }) => self.tell_log(text, said, out),
            Ok(LogLine::Trace { .. }) => self.telling.tell(text, out),
            Ok(LogLine::Remark) | Err(_) => push_plain(out, text),
        }
    }

    /// Tells a line of a log again into an empty buffer.
    fn tell_log(&mut self, text: &[u8], said: &Said, out: &mut Vec<u8>) -> Result<(), AllocError>
        requires empty { out.old.items ≡ [] }
        ensures told { OnOk result ((words : List ℕ) × TellsSaid self.old said.now words
            × (out.new.items ≡ text.now ++ words ++ codes "\n")) }
        ensures mask { self.new ≡ self.old }
    {
        out.extend_from_slice(text)?;
        push_said(out, &mut self.note, said, self.mask)?;
        out.extend_from_slice(b"\n")
    }
}
