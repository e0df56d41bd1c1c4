//! Why a line, or something on it, is not audited, and the sum of all lines.
ghost use Rattle.std.specs.Prelude.{◌≡◌, ◌+◌, ◌<◌, ◌≤◌, ◌++◌, ℕ, List, length, OnErr, OnOk, vec_capacity, vec_len};
ghost use Rattle.gp_finding.specs.Told.{told_error, told_sum};

use crate::object::{push_error_object, push_sum_object};
use crate::push::FindingForm;
use crate::text::{push_error_text, push_sum_text};
use gp_log::LogFault;
use std::alloc::AllocError;

/// Why a line, or something that is said on it, is not audited.
#[derive(Clone, Copy, Debug, PartialEq, Eq)]
pub enum LineError {
    /// It says nothing.
    Log(LogFault),
    /// Its time is before that of the line before, on the same port.
    Time,
    /// A unit more than can be followed gave its serial number. Of the line that alone is passed over.
    Full,
}

/// What came of all lines.
#[derive(Clone, Copy, Debug, PartialEq, Eq)]
pub struct AuditSum {
    /// How many lines came.
    pub lines: u64,
    /// How many findings were told.
    pub findings: u64,
    /// How many errors were told.
    pub errors: u64,
}

/// Appends what is told of a line by its number, from 1, where it is not audited, or something that is said on it.
///
/// Out of memory only where there is no room for it. What the buffer held stands there then, and behind it maybe a
/// first part of what is told. The room never gets less.
#[tactic(auto, unfolding(crate::specs::Told::told_error))]
pub fn push_error(
    out: &mut Vec<u8>,
    form: FindingForm,
    line: u64,
    error: LineError,
) -> Result<(), AllocError>
    ensures told { OnOk result (out.new.items ≡ out.old.items ++ told_error form line error) }
    ensures part { OnErr result ((part rest : List ℕ) × (told_error form line error ≡ part ++ rest)
        × (out.new.items ≡ out.old.items ++ part)) }
    ensures room { OnErr result (vec_capacity out.old < vec_len out.old + length (told_error form line error)) }
    ensures capacity { vec_capacity out.old ≤ vec_capacity out.new }
{
    match form {
        FindingForm::Text => push_error_text(out, line, error),
        FindingForm::Json => push_error_object(out, line, error),
    }
}

/// Appends what is told at the end.
///
/// What of memory is the same as of `push_error`.
#[tactic(auto, unfolding(crate::specs::Told::told_sum))]
pub fn push_sum(out: &mut Vec<u8>, form: FindingForm, sum: &AuditSum) -> Result<(), AllocError>
    ensures told { OnOk result (out.new.items ≡ out.old.items ++ told_sum form sum.now) }
    ensures part { OnErr result ((part rest : List ℕ) × (told_sum form sum.now ≡ part ++ rest)
        × (out.new.items ≡ out.old.items ++ part)) }
    ensures room { OnErr result (vec_capacity out.old < vec_len out.old + length (told_sum form sum.now)) }
    ensures capacity { vec_capacity out.old ≤ vec_capacity out.new }
{
    match form {
        FindingForm::Text => push_sum_text(out, sum),
        FindingForm::Json => push_sum_object(out, sum),
    }
}
