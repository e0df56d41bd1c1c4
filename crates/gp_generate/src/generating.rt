//! `generate`: the whole script, written into a sink, an event at a time.
ghost use Rattle.std.specs.Prelude.{◌≡◌, ◌<◌, ◌++◌, [], OnOk};
ghost use Rattle.gp_generate.specs.Script as spec;
ghost use Rattle.gp_generate.specs.declared.generating.GenerateFault.TheVariants as faults;
ghost use Rattle.gp_generate.specs.Script.{HandsOver, StopsBy};
ghost use Rattle.gp_generate.specs.Tables.{head_text};

use crate::course::Course;
use crate::event::Event;
use crate::event_text::push_event;
use crate::mistake::{MISTAKES, Mistake, mistake_at, mistake_text};
use crate::pieces::push_text;
use crate::plan::Plan;
use crate::scene::{ORDERS, SAYINGS, SCENES};
use crate::tables::push_head;
use gp_stream::{Sink, WriteStopped};
use std::alloc::{AllocError, Global};
use std::io::Write;
use thiserror::Error;

/// Why a script was not written whole.
#[derive(Clone, Copy, Debug, PartialEq, Eq, Error)]
pub enum GenerateFault {
    /// Out of memory for what stands before the events, or for an event.
    #[error("out of memory")]
    OutOfMemory,
    /// A write failed or took nothing, or a flush failed.
    #[error("a write failed or took nothing")]
    Write,
}

impl From<AllocError> for GenerateFault {
    ghost from_gives = { λ _ fault. fault ≡ faults.OutOfMemory };

    fn from(_error: AllocError) -> GenerateFault {
        GenerateFault::OutOfMemory
    }
}

impl From<WriteStopped> for GenerateFault {
    ghost from_gives = { λ _ fault. fault ≡ faults.Write };

    fn from(_error: WriteStopped) -> GenerateFault {
        GenerateFault::Write
    }
}

/// Appends an event that has a mistake, or as it is, where the mistake is none of an event.
fn push_wrong(out: &mut Vec<u8>, mistake: Mistake, event: &Event) -> Result<(), AllocError>
    ensures { OnOk result (out.new.items ≡ out.old.items ++ spec.wrong_text mistake event.now) }
{
    match mistake_text(mistake) {
        Some(text) => push_text(out, text),
        None => push_event(out, event),
    }
}

/// Appends the event of this number as the script has it.
fn push_told(out: &mut Vec<u8>, plan: &Plan, number: u32, event: &Event) -> Result<(), AllocError>
    ensures { OnOk result (out.new.items ≡ out.old.items ++ spec.told MISTAKES plan.now number event.now) }
{
    match mistake_at(plan, number) {
        Some(mistake) => push_wrong(out, mistake, event),
        None => push_event(out, event),
    }
}

/// Puts the event of this number. The buffer is lent.
fn put_told<W: Write>(
    sink: &mut Sink<W>,
    text: &mut Vec<u8>,
    plan: &Plan,
    number: u32,
    event: &Event,
) -> Result<(), GenerateFault>
    ensures hands { HandsOver sink.old sink.new (spec.told MISTAKES plan.now number event.now) result }
    ensures stops { StopsBy sink.old sink.new result }
{
    text.clear();
    push_told(text, plan, number, event)?;
    sink.put(text.as_slice())?;
    Ok(())
}

/// Puts what stands before the events. The buffer is lent.
fn put_head<W: Write>(
    sink: &mut Sink<W>,
    text: &mut Vec<u8>,
    plan: &Plan,
) -> Result<(), GenerateFault>
    ensures hands { HandsOver sink.old sink.new (head_text MISTAKES plan.now) result }
    ensures stops { StopsBy sink.old sink.new result }
{
    text.clear();
    push_head(text, plan)?;
    sink.put(text.as_slice())?;
    Ok(())
}

/// Puts all events.
fn put_events<W: Write>(
    sink: &mut Sink<W>,
    text: &mut Vec<u8>,
    plan: &Plan,
) -> Result<(), GenerateFault>
    ensures hands { HandsOver sink.old sink.new
        (spec.events_text MISTAKES SCENES SAYINGS ORDERS plan.now plan.now.events) result }
    ensures stops { StopsBy sink.old sink.new result }
{
    let mut course = Course::begin(plan);
    'events: for number in 0..plan.events() {
        let event = course.next_event(plan);
        put_told(sink, text, plan, number, &event)?;
    }
    Ok(())
}

/// Puts the whole script.
fn put_script<W: Write>(
    sink: &mut Sink<W>,
    text: &mut Vec<u8>,
    plan: &Plan,
) -> Result<(), GenerateFault>
    ensures hands { HandsOver sink.old sink.new (spec.script_text MISTAKES SCENES SAYINGS ORDERS plan.now) result }
    ensures stops { StopsBy sink.old sink.new result }
{
    put_head(sink, text, plan)?;
    put_events(sink, text, plan)
}

/// Writes the script of a plan: the same for the same plan. An event is written as it is drawn, so no more than one and
/// what stands before them is ever kept. Where memory is refused or a write fails, the sink was handed a part of it.
pub fn generate<W: Write>(
    alloc: Global,
    plan: &Plan,
    sink: &mut Sink<W>,
) -> Result<(), GenerateFault>
    ensures script { HandsOver sink.old sink.new (spec.script_text MISTAKES SCENES SAYINGS ORDERS plan.now) result }
    ensures empty { OnOk result (sink.new.gathered ≡ []) }
    ensures stops { StopsBy sink.old sink.new result }
{
    let mut text = Vec::new(alloc);
    put_script(sink, &mut text, plan)?;
    sink.finish()?;
    Ok(())
}
