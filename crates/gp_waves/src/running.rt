//! From the bytes of a trace or a log to its value change dump, and what was dumped of it. Memory is flat.
ghost use Rattle.std.specs.Prelude.{◌≡◌, true};
ghost use Rattle.gp_waves.specs.Writing.{all_ports};
ghost use Rattle.gp_waves.specs.Outcome as spec;

use crate::dumper::Dumper;
use crate::options::WavesOptions;
use gp_explain::ExplainFault;
use gp_finding::Codes;
use gp_flow::{LinesFault, Unanswered, run_lines};
use gp_stream::{Sink, Source};
use gp_times::Outside;
use std::alloc::Global;
use std::io::{Read, Write};

/// What was dumped.
#[derive(Clone, Copy, Debug, PartialEq, Eq)]
pub struct WavesSum {
    /// How many lines came.
    pub lines: u64,
    /// Whether one of them says anything: not all are empty or remarks.
    pub heard: bool,
    /// How many lines of a log were not heard, since their time is before that of their port.
    pub fallen: u64,
    /// How many codes came, and how many of them are garbled under the mask, of which nothing is heard but that: of all
    /// lines, whatever their times, also of those that fell or are in none of the frames that are dumped.
    pub codes: Codes,
    /// How many changes stand at a later time than theirs, since their port was too far behind the others.
    pub late: u64,
    /// Where all that was heard is, if all of it is before the first of the frames that are dumped, or all of it behind
    /// the last.
    pub outside: Option<Outside>,
}

/// Reads a trace or a log to its end and writes it as a value change dump. The changes of all ports stand in the order
/// of their times, which are in nanoseconds; at most 65,536 changes are held back for that. Where no more come, the
/// dump declares the ports of which lines told, and as many lanes as they have units; else all that there can be.
///
/// The first line that `gp_log::read_line` doesn't read ends it, behind the dump of the lines before it; so does a
/// failed read. Full is answered only where a line is why: a count can't go on with it. Memory is flat: what is kept of
/// at most 4,096 serial numbers a port, and the changes that are held back.
pub fn dump_waves<R: Read, W: Write>(
    alloc: Global,
    options: &WavesOptions,
    source: &mut Source<R>,
    sink: &mut Sink<W>,
) -> Result<WavesSum, ExplainFault>
    requires { sink.old.flushed ≡ true }
    ensures { spec.DumpsWaves options.now.frames options.now.mask source.old source.new sink.old sink.new result }
{
    let mut dumper = Dumper::begin(alloc, options)?;
    match run_lines(alloc, source, sink, &mut dumper) {
        Ok(_) => {
            write_rest(alloc, &mut dumper, sink)?;
            finding(options, &dumper)
        }
        Err(LinesFault::Read) => {
            write_rest(alloc, &mut dumper, sink)?;
            Err(ExplainFault::Lines(LinesFault::Read))
        }
        Err(LinesFault::Line(fault)) => Err(ExplainFault::Lines(LinesFault::Line(fault))),
    }
}

/// Writes what is still to be written.
fn write_rest<W: Write>(
    alloc: Global,
    dumper: &mut Dumper,
    sink: &mut Sink<W>,
) -> Result<(), ExplainFault>
    requires { dumper.old.written.begun ≡ true → dumper.old.written.dump.ports ≡ all_ports }
    ensures { spec.WritesRest dumper.old dumper.new sink.old sink.new result }
{
    let text = match dumper.writing.rest(alloc, &mut dumper.waves) {
        Ok(text) => text,
        Err(error) => return Err(ExplainFault::from(error)),
    };
    match sink.write_whole(text.as_slice()) {
        Ok(()) => Ok(()),
        Err(_) => Err(ExplainFault::Lines(LinesFault::Line(Unanswered::Write))),
    }
}

/// What was found.
fn finding(options: &WavesOptions, dumper: &Dumper) -> Result<WavesSum, ExplainFault>
    ensures { spec.IsFound options.now.frames dumper.now result }
{
    match dumper.ended {
        Some(why) => Err(ExplainFault::Refused {
            line: dumper.lines,
            why,
        }),
        None => Ok(WavesSum {
            lines: dumper.lines,
            heard: dumper.heard,
            fallen: dumper.times.fallen(),
            codes: dumper.codes,
            late: dumper.writing.late,
            outside: dumper.times.outside(&options.frames),
        }),
    }
}
