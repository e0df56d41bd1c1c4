//! Dumps of texts, and what is counted of them.
use crate::parsed::{Wanted, parse};
use gp_explain::ExplainFault;
use gp_ploam::Mask;
use gp_stream::{Sink, Source};
use gp_waves::{Codes, Frames, WavesOptions, WavesSum, dump_waves};
use std::alloc::{AllocError, Global};
use std::io::{Read, Write};

/// All frames.
pub(crate) const ALL: Frames = Frames {
    from: 0,
    to: u64::MAX,
};

/// The options of a dump of these frames.
pub(crate) fn options(frames: Frames) -> WavesOptions {
    WavesOptions {
        frames,
        mask: Mask::Plain,
        midway: false,
    }
}

/// A dump, and how it ended.
#[derive(Drop)]
pub(crate) struct DumpText {
    pub(crate) outcome: Result<WavesSum, ExplainFault>,
    pub(crate) octets: Vec<u8>,
}

impl DumpText {
    /// Its text.
    pub(crate) fn text(&self) -> &str {
        str::from_utf8(self.octets.as_slice()).unwrap_or("")
    }
}

/// Gives the dump of what is read.
pub(crate) fn dumped_from<R: Read + Drop>(
    alloc: Global,
    reader: R,
    frames: Frames,
) -> Result<DumpText, AllocError> {
    let mut source = Source::endless(reader);
    let mut sink = Sink::new(alloc, Vec::new(alloc))?;
    let outcome = dump_waves(alloc, &options(frames), &mut source, &mut sink);
    Ok(DumpText {
        outcome,
        octets: sink.into_inner(),
    })
}

/// Gives the dump of a text.
pub(crate) fn dumped(alloc: Global, text: &str, frames: Frames) -> Result<DumpText, AllocError> {
    dumped_from(alloc, text.as_bytes(), frames)
}

/// Tells how dumping a text to a writer ends, and gives the writer back.
pub(crate) fn dumped_to<W: Write + Drop>(
    alloc: Global,
    text: &str,
    writer: W,
) -> Result<(Result<WavesSum, ExplainFault>, W), AllocError> {
    let mut source = Source::endless(text.as_bytes());
    let mut sink = Sink::new(alloc, writer)?;
    let outcome = dump_waves(alloc, &options(ALL), &mut source, &mut sink);
    Ok((outcome, sink.into_inner()))
}

/// Gives how many codes of a text came, and how many of them are garbled under a mask.
pub(crate) fn codes_of(
    alloc: Global,
    text: &str,
    frames: Frames,
    mask: Mask,
) -> Result<Codes, ExplainFault> {
    let mut source = Source::endless(text.as_bytes());
    let mut sink = Sink::new(alloc, Vec::new(alloc))?;
    let options = WavesOptions {
        mask,
        ..options(frames)
    };
    let sum = dump_waves(alloc, &options, &mut source, &mut sink)?;
    Ok(sum.codes)
}

/// Tells whether a dump ended behind so many lines, of which so many fell, and none of its changes is late.
pub(crate) fn is_sum(dump: &DumpText, lines: u64, fallen: u64) -> bool {
    match dump.outcome {
        Ok(sum) => sum.lines == lines && sum.fallen == fallen && sum.late == 0,
        Err(_) => false,
    }
}

/// A variable: of ports where the first is empty, of units where it is "unit"; which of its values are counted, and how
/// many there are.
pub(crate) type Count = (&'static str, &'static str, Wanted<'static>, u64);

/// Tells whether a text is a whole dump with so many of these values in it.
pub(crate) fn is_dump_with(alloc: Global, text: &str, count: &Count) -> Result<bool, AllocError> {
    let (unit, name, wanted, number) = *count;
    match parse(alloc, text)? {
        Some(parsed) => Ok(parsed.count(unit, name, wanted) == number),
        None => Ok(false),
    }
}

/// Tells whether that is so of the dump of a text.
pub(crate) fn has_count(
    alloc: Global,
    text: &str,
    frames: Frames,
    count: &Count,
) -> Result<bool, AllocError> {
    let dump = dumped(alloc, text, frames)?;
    is_dump_with(alloc, dump.text(), count)
}
