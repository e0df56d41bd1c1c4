//! The pieces that both forms are made of: numbers behind their names, and counts by a name each.
ghost use Rattle.std.specs.Prelude.{◌≡◌, ◌++◌, OnOk, decimal};
ghost use Rattle.std.specs.List.{flat_map};
ghost use Rattle.gp_summary.specs.Text as spec;

use crate::form::SummaryForm;
use gp_alarms::AlarmKind;
use gp_tally::{ALARM_KINDS, kind_place};
use itoa::Buffer;
use std::alloc::AllocError;

/// The kinds of alarms, in the order in which they are told.
pub(crate) static KINDS: [AlarmKind; 6] = [
    AlarmKind::Los,
    AlarmKind::Loam,
    AlarmKind::Loa,
    AlarmKind::Suf,
    AlarmKind::Df,
    AlarmKind::Dg,
];

/// Appends a number.
pub(crate) fn push_number(out: &mut Vec<u8>, number: u64) -> Result<(), AllocError>
    ensures { OnOk result (out.new.items ≡ out.old.items ++ decimal number) }
{
    let mut digits = Buffer::new();
    out.extend_from_slice(digits.format(number).as_bytes())
}

/// Appends a number behind its name.
pub(crate) fn push_field(out: &mut Vec<u8>, name: &str, number: u64) -> Result<(), AllocError>
    ensures { OnOk result (out.new.items ≡ out.old.items ++ spec.number_field name.now number) }
{
    out.extend_from_slice(name.as_bytes())?;
    push_number(out, number)
}

/// Appends a number behind its name, where there is one.
pub(crate) fn push_if(out: &mut Vec<u8>, name: &str, number: Option<u64>) -> Result<(), AllocError>
    ensures { OnOk result (out.new.items ≡ out.old.items ++ spec.number_if name.now number) }
{
    match number {
        Some(number) => push_field(out, name, number),
        None => Ok(()),
    }
}

/// Appends a number behind its name, or `null` where there is none.
pub(crate) fn push_or_null(
    out: &mut Vec<u8>,
    name: &str,
    number: Option<u64>,
) -> Result<(), AllocError>
    ensures { OnOk result (out.new.items ≡ out.old.items ++ spec.number_or_null name.now number) }
{
    match number {
        Some(number) => push_field(out, name, number),
        None => {
            out.extend_from_slice(name.as_bytes())?;
            out.extend_from_slice(b"null")
        }
    }
}

/// Appends a count as text, if something was counted.
fn push_count_text(out: &mut Vec<u8>, word: &str, name: &str, count: u64) -> Result<(), AllocError>
    ensures { OnOk result (out.new.items ≡ out.old.items ++ spec.count_told SummaryForm.Text word.now name.now count) }
{
    if count == 0 {
        return Ok(());
    }
    out.extend_from_slice(b", ")?;
    out.extend_from_slice(word.as_bytes())?;
    out.extend_from_slice(b" ")?;
    out.extend_from_slice(name.as_bytes())?;
    out.extend_from_slice(b" ")?;
    push_number(out, count)
}

/// Appends a count as JSON.
fn push_count_object(
    out: &mut Vec<u8>,
    word: &str,
    name: &str,
    count: u64,
) -> Result<(), AllocError>
    ensures { OnOk result (out.new.items ≡ out.old.items ++ spec.count_told SummaryForm.Json word.now name.now count) }
{
    out.extend_from_slice(b",\"")?;
    out.extend_from_slice(word.as_bytes())?;
    out.extend_from_slice(b"_")?;
    out.extend_from_slice(name.as_bytes())?;
    out.extend_from_slice(b"\":")?;
    push_number(out, count)
}

/// Appends a count.
pub(crate) fn push_count(
    out: &mut Vec<u8>,
    form: SummaryForm,
    word: &str,
    name: &str,
    count: u64,
) -> Result<(), AllocError>
    ensures { OnOk result (out.new.items ≡ out.old.items ++ spec.count_told form word.now name.now count) }
{
    match form {
        SummaryForm::Text => push_count_text(out, word, name, count),
        SummaryForm::Json => push_count_object(out, word, name, count),
    }
}

/// Appends how many alarms there were of a kind.
fn push_alarm(
    out: &mut Vec<u8>,
    form: SummaryForm,
    counts: &[u64; ALARM_KINDS],
    kind: AlarmKind,
) -> Result<(), AllocError>
    ensures { OnOk result (out.new.items ≡ out.old.items ++ spec.alarm_told form counts.now kind) }
{
    push_count(out, form, "alarm", kind.name(), counts[kind_place(kind)])
}

/// Appends how many alarms there were, of each of these kinds.
pub(crate) fn push_alarms(
    out: &mut Vec<u8>,
    form: SummaryForm,
    counts: &[u64; ALARM_KINDS],
    kinds: &[AlarmKind],
) -> Result<(), AllocError>
    ensures { OnOk result (out.new.items ≡ out.old.items ++ flat_map (spec.alarm_told form counts.now) kinds.now) }
{
    'kinds: for kind in kinds {
        push_alarm(out, form, counts, *kind)?;
    }
    Ok(())
}

/// Ends a line.
pub(crate) fn push_end(out: &mut Vec<u8>, form: SummaryForm) -> Result<(), AllocError>
    ensures { OnOk result (out.new.items ≡ out.old.items ++ spec.end_told form) }
{
    match form {
        SummaryForm::Text => out.extend_from_slice(b"\n"),
        SummaryForm::Json => out.extend_from_slice(b"}\n"),
    }
}
