//! A port's time before a line: the frames that it has had, in milliseconds.
ghost use Rattle.std.specs.Prelude.{◌≡◌, ◌++◌, ◌<◌, OnOk};
ghost use Rattle.gp_explain.specs.Telling as spec;

use gp_machine::Event;
use itoa::Buffer;
use std::alloc::AllocError;

/// How many frames of 125 microseconds a millisecond has.
const FRAMES_IN_MILLISECOND: u64 = 8;

/// The thousandths of a millisecond that a frame has.
const FRAME_THOUSANDTHS: u64 = 125;

/// Counts the frame of an event, if it is one.
pub(crate) fn frames_with(event: &Event, frames: u64) -> u64
    ensures { result ≡ spec.frames_with event.now frames }
{
    match event {
        Event::Frame => frames.saturating_add(1),
        Event::Burst { .. } | Event::Command(_) => frames,
    }
}

/// Gives the digits of a number below 1000.
fn three_digits(number: u64) -> [u8; 3]
    requires { number < 1000 }
    ensures { result ≡ spec.three_digits number }
{
    [
        b'0' + (number / 100) as u8,
        b'0' + (number / 10 % 10) as u8,
        b'0' + (number % 10) as u8,
    ]
}

/// Appends so many frames in milliseconds.
fn push_milliseconds(out: &mut Vec<u8>, frames: u64) -> Result<(), AllocError>
    ensures { OnOk result (out.new.items ≡ out.old.items ++ spec.milliseconds frames) }
{
    let mut whole = Buffer::new();
    let thousandths = three_digits(frames % FRAMES_IN_MILLISECOND * FRAME_THOUSANDTHS);
    out.extend_from_slice(whole.format(frames / FRAMES_IN_MILLISECOND).as_bytes())?;
    out.extend_from_slice(b".")?;
    out.extend_from_slice(&thousandths)
}

/// Appends a port's time: the frames that it has had.
pub(crate) fn push_time(out: &mut Vec<u8>, frames: u64) -> Result<(), AllocError>
    ensures { OnOk result (out.new.items ≡ out.old.items ++ spec.time_text frames) }
{
    let mut count = Buffer::new();
    out.extend_from_slice(b"[frame ")?;
    out.extend_from_slice(count.format(frames).as_bytes())?;
    out.extend_from_slice(b", ")?;
    push_milliseconds(out, frames)?;
    out.extend_from_slice(b" ms] ")
}
