//! From the bytes of a trace or a log to its picture: nothing is written before all of it was read, and none where a
//! line can't be.
ghost use Rattle.std.specs.Prelude.{◌≡◌, true};
ghost use Rattle.line_columns.specs.Layout.{as_they_are};
ghost use Rattle.gp_picture.specs.Outcome as spec;

use crate::drawer::Drawer;
use crate::options::PictureOptions;
use crate::picture::Picture;
use crate::whole::picture_text;
use gp_explain::ExplainFault;
use gp_finding::Codes;
use gp_flow::{LinesFault, Unanswered, run_lines};
use gp_stream::{Sink, Source};
use gp_times::{Outside, PortTimes};
use line_columns::Layout;
use std::alloc::Global;
use std::io::{Read, Write};

/// What was drawn.
#[derive(Clone, Copy, Debug, PartialEq, Eq)]
pub struct PictureSum {
    /// How many lines came.
    pub lines: u64,
    /// Whether one of them says anything: not all are empty or remarks.
    pub heard: bool,
    /// How many lines of a log were not heard, since their time is before that of their port.
    pub fallen: u64,
    /// How many codes came, and how many of them are garbled under the mask, of which nothing is drawn but that: of all
    /// lines, whatever their times, also of those that fell or are in none of the frames that are drawn.
    pub codes: Codes,
    /// Where all that was heard is, if all of it is before the first of the frames that are drawn, or all of it behind
    /// the last.
    pub outside: Option<Outside>,
}

/// Reads a trace or a log to its end, writes its picture, and answers what was drawn. Nothing is written before all of
/// it was read. The first line that `gp_log::read_line` doesn't read ends it, and no picture is written then.
///
/// What memory it takes has a bound, whatever the length of the input: for at most 4,096 serial numbers a port, 1,024
/// lanes, and about 3,000 marks and changes.
pub fn draw_trace<R: Read, W: Write>(
    alloc: Global,
    options: &PictureOptions,
    source: &mut Source<R>,
    sink: &mut Sink<W>,
) -> Result<PictureSum, ExplainFault>
    requires { sink.old.flushed ≡ true }
    ensures { spec.DrawsTrace as_they_are options.now.frames options.now.mask
        source.old source.new sink.old sink.new result }
{
    draw_trace_with(alloc, options, Layout::as_they_are(alloc), source, sink)
}

/// Draws a log whose lines are laid out like this: of each line what its layout makes of it is read.
pub fn draw_trace_with<R: Read, W: Write>(
    alloc: Global,
    options: &PictureOptions,
    layout: Layout,
    source: &mut Source<R>,
    sink: &mut Sink<W>,
) -> Result<PictureSum, ExplainFault>
    requires { sink.old.flushed ≡ true }
    ensures { spec.DrawsTrace layout options.now.frames options.now.mask
        source.old source.new sink.old sink.new result }
{
    let mut drawer = Drawer::begin(alloc, options, layout)?;
    run_lines(alloc, source, sink, &mut drawer)?;
    finish(alloc, options, &drawer, sink)
}

/// Writes the picture of all lines, unless one ended it.
fn finish<W: Write>(
    alloc: Global,
    options: &PictureOptions,
    drawer: &Drawer,
    sink: &mut Sink<W>,
) -> Result<PictureSum, ExplainFault>
    ensures { spec.Ends options.now.frames drawer.now sink.old sink.new result }
{
    match drawer.ended {
        Some(why) => Err(ExplainFault::Refused {
            line: drawer.lines,
            why,
        }),
        None => {
            write_picture(alloc, &drawer.picture, &drawer.times, sink)?;
            Ok(PictureSum {
                lines: drawer.lines,
                heard: drawer.heard,
                fallen: drawer.times.fallen(),
                codes: drawer.codes,
                outside: drawer.times.outside(&options.frames),
            })
        }
    }
}

/// Writes a picture of ports at these times as SVG.
fn write_picture<W: Write>(
    alloc: Global,
    picture: &Picture,
    times: &PortTimes,
    sink: &mut Sink<W>,
) -> Result<(), ExplainFault>
    ensures { spec.WritesPicture sink.old sink.new result }
{
    let text = picture_text(alloc, picture, times)?;
    match sink.write_whole(text.as_bytes()) {
        Ok(()) => Ok(()),
        Err(_) => Err(ExplainFault::Lines(LinesFault::Line(Unanswered::Write))),
    }
}
