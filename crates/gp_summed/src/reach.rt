//! Up to which line a trace is told of that is no run.
ghost use Rattle.std.specs.Prelude.{◌≡◌, ◌++◌, OnOk, decimal};
ghost use Rattle.gp_summed.specs.Verifying as spec;

use gp_explain::Form;
use gp_summary::SummaryForm;
use gp_verify::{Verdict, VerifyFault};
use itoa::Buffer;
use std::alloc::AllocError;

/// How a summary is told beside what is found in this form.
pub fn summary_form(form: Form) -> SummaryForm
    ensures { result ≡ spec.summary_form form }
{
    match form {
        Form::Json => SummaryForm::Json,
        Form::Plain | Form::Words => SummaryForm::Text,
    }
}

/// Appends a number between two texts.
fn push_between(
    out: &mut Vec<u8>,
    before: &str,
    number: u64,
    behind: &str,
) -> Result<(), AllocError>
    ensures { OnOk result (out.new.items ≡ out.old.items ++ (before.now ++ decimal number ++ behind.now)) }
{
    let mut digits = Buffer::new();
    out.extend_from_slice(before.as_bytes())?;
    out.extend_from_slice(digits.format(number).as_bytes())?;
    out.extend_from_slice(behind.as_bytes())
}

/// Appends the line up to which entries are those of the trace alone.
fn push_line(out: &mut Vec<u8>, form: SummaryForm, line: u64) -> Result<(), AllocError>
    ensures { OnOk result (out.new.items ≡ out.old.items ++ spec.reach form line) }
{
    match form {
        SummaryForm::Text => push_between(out, "up to line ", line, "\n"),
        SummaryForm::Json => push_between(out, "{\"up_to\":", line, ",\"machine\":false}\n"),
    }
}

/// Appends the line behind which the machine's own entry stands.
fn push_machine(out: &mut Vec<u8>, form: SummaryForm, line: u64) -> Result<(), AllocError>
    ensures { OnOk result (out.new.items ≡ out.old.items ++ spec.reach_machine form line) }
{
    match form {
        SummaryForm::Text => push_between(out, "up to line ", line, ", then the machine's own\n"),
        SummaryForm::Json => push_between(out, "{\"up_to\":", line, ",\"machine\":true}\n"),
    }
}

/// Appends how far a trace is a run whose line with this number can't be.
fn push_refused(
    out: &mut Vec<u8>,
    form: SummaryForm,
    line: u64,
    verdict: Verdict,
) -> Result<(), AllocError>
    ensures { OnOk result (out.new.items ≡ out.old.items ++ spec.reach_refused form line verdict) }
{
    let before = line.saturating_sub(1);
    match verdict {
        Verdict::WrongNumber | Verdict::NotAStep => push_machine(out, form, before),
        Verdict::Follows | Verdict::NotALine | Verdict::NoPort | Verdict::TooLong => {
            push_line(out, form, before)
        }
    }
}

/// Appends how far a trace is a run, if it isn't one.
pub(crate) fn push_reach(
    out: &mut Vec<u8>,
    form: SummaryForm,
    found: &Result<u64, VerifyFault>,
) -> Result<(), AllocError>
    ensures { OnOk result (out.new.items ≡ out.old.items ++ spec.reach_text form found.now) }
{
    match *found {
        Ok(_) | Err(VerifyFault::Lines(_)) => Ok(()),
        Err(VerifyFault::Refused { line, verdict }) => push_refused(out, form, line, verdict),
        Err(VerifyFault::Unended { line }) => push_line(out, form, line),
    }
}
