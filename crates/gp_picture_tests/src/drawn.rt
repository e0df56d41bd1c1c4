//! Pictures of texts.
use gp_explain::ExplainFault;
use gp_picture::{Codes, Frames, PORTS, PictureOptions, PictureSum, draw_trace};
use gp_ploam::Mask;
use gp_stream::{Sink, Source};
use std::alloc::Global;

/// All frames.
pub(crate) const ALL: Frames = Frames {
    from: 0,
    to: u64::MAX,
};

/// The options of a picture of these frames.
pub(crate) fn options(frames: Frames) -> PictureOptions {
    PictureOptions {
        frames,
        mask: Mask::Plain,
        teqd: [311_040; PORTS],
        drift: 8,
        midway: false,
    }
}

/// Gives the picture of a text, and what was drawn.
pub(crate) fn drawn_with_sum(
    alloc: Global,
    text: &[u8],
    frames: Frames,
) -> Result<(Vec<u8>, PictureSum), ExplainFault> {
    let mut source = Source::endless(text);
    let mut sink = Sink::new(alloc, Vec::new(alloc))?;
    let sum = draw_trace(alloc, &options(frames), &mut source, &mut sink)?;
    Ok((sink.into_inner(), sum))
}

/// Gives how many codes of a text came, and how many of them are garbled under a mask.
pub(crate) fn codes_of(
    alloc: Global,
    text: &str,
    frames: Frames,
    mask: Mask,
) -> Result<Codes, ExplainFault> {
    let mut source = Source::endless(text.as_bytes());
    let mut sink = Sink::new(alloc, Vec::new(alloc))?;
    let options = PictureOptions {
        mask,
        ..options(frames)
    };
    let sum = draw_trace(alloc, &options, &mut source, &mut sink)?;
    Ok(sum.codes)
}

/// Gives the picture of a text.
pub(crate) fn drawn(alloc: Global, text: &[u8], frames: Frames) -> Result<Vec<u8>, ExplainFault> {
    let (picture, _) = drawn_with_sum(alloc, text, frames)?;
    Ok(picture)
}

/// Tells whether a picture holds an element.
pub(crate) fn holds(picture: &[u8], element: &str) -> bool {
    str::from_utf8(picture).unwrap_or("").contains(element)
}

/// Gives how many more marks the title of an element tells of.
fn more_in(element: &str) -> u64 {
    let Some((title, _)) = element.split_once("</title>") else {
        return 0;
    };
    let Some(told) = title.strip_suffix(" more") else {
        return 0;
    };
    match told.rsplit_once(", ") {
        Some((_, number)) => number.parse().unwrap_or(0),
        None => 0,
    }
}

/// Gives how many spans or marks that look so a picture has, those too that are drawn as one. The legend's is none.
pub(crate) fn count_of(picture: &[u8], class: &str) -> u64 {
    let mut count = 0u64;
    for element in str::from_utf8(picture)
        .unwrap_or("")
        .split("<rect class=\"")
    {
        let is_titled = element.contains("height=\"12\"><title>");
        if is_titled && element.split('"').next() == Some(class) {
            count = count.saturating_add(more_in(element)).saturating_add(1);
        }
    }
    count
}
