//! How lines are told, one after another.
ghost use Rattle.std.specs.Prelude.{◌≡◌, ◌++◌, [], OnErr, OnOk, codes, slice_index};
ghost use Rattle.gp_lines.specs.Trace.{SplitsLine};
ghost use Rattle.gp_explain.specs.Telling.{
  TellsOneLine,
  TellsAt,
  TellsTraceLine,
  light_told,
  no_frames,
  other_of,
  other_told,
  shown,
  time_of,
};

use crate::form::Form;
use crate::line::push_words;
use crate::time::{frames_with, push_time};
use gp_json::{LightLine, light_in, write_light, write_object, write_other};
use gp_lines::{PORTS, TraceLine, split_line};
use gp_ploam::Mask;
use std::alloc::{AllocError, Global};
use std::marker::Model;

/// The number of the only port where there are simulated units.
const ONLY_PORT: usize = 0;

/// Tells lines, one after another. Contracts see what the next line is told by.
#[derive(Drop)]
pub struct Telling {
    alloc: Global,
    mask: Mask,
    form: Form,
    timed: bool,
    frames: [u64; PORTS],
}

impl Model for Telling {
    ghost use Rattle.gp_explain.specs.Telling.{Manner};

    ghost Value = { Manner };

    ghost view = { λ s. record { mask = s.mask; form = s.form; timed = s.timed; frames = s.frames } };
}

/// Appends a line as it is.
fn push_plain(text: &[u8], out: &mut Vec<u8>) -> Result<(), AllocError>
    ensures { OnOk result (out.new.items ≡ out.old.items ++ (text.now ++ codes "\n")) }
{
    out.extend_from_slice(text)?;
    out.extend_from_slice(b"\n")
}

/// Appends a port's time, if it is told.
fn push_time_if(timed: bool, frames: u64, out: &mut Vec<u8>) -> Result<(), AllocError>
    ensures { OnOk result (out.new.items ≡ out.old.items ++ time_of timed frames) }
{
    if timed {
        push_time(out, frames)?;
    }
    Ok(())
}

/// Gives the frames, if the time is told.
fn shown(timed: bool, frames: u64) -> Option<u64>
    ensures { result ≡ shown timed frames }
{
    if timed { Some(frames) } else { None }
}

/// Writes a line that is neither of a trace nor of light in this form, into an empty buffer.
fn push_unread(form: Form, text: &[u8], out: &mut Vec<u8>) -> Result<(), AllocError>
    requires { out.old.items ≡ [] }
    ensures { OnOk result (out.new.items ≡ other_of form text.now) }
{
    match form {
        Form::Plain | Form::Words => push_plain(text, out),
        Form::Json => write_other(text, out),
    }
}

impl Telling {
    /// Tells lines of traces in this form, with the port's time if that is wanted. The mask is that of
    /// their codes. No port has had a frame.
    pub fn new(alloc: Global, mask: Mask, form: Form, timed: bool) -> Telling
        ensures { result ≡ record { mask = mask; form = form; timed = timed; frames = no_frames } }
    {
        Telling {
            alloc,
            mask,
            form,
            timed,
            frames: [0; PORTS],
        }
    }

    /// Writes what is told of a line, with a line feed behind it, in the place of what the buffer holds. The line comes
    /// without its line feed.
    ///
    /// Memory is taken only where the buffer has no room. Where it is refused, the buffer may hold a part of it.
    pub fn tell(&mut self, text: &[u8], out: &mut Vec<u8>) -> Result<(), AllocError>
        ensures ok { OnOk result (TellsOneLine self.old text.now out.new.items self.new) }
        ensures err { OnErr result (self.new ≡ self.old) }
    {
        out.clear();
        match split_line(text) {
            Some(line) => self.tell_line(text, &line, out),
            None => self.push_other(text, out),
        }
    }

    /// The same of a line of a trace, which was cut into these parts.
    pub(crate) fn tell_line(
        &mut self,
        text: &[u8],
        line: &TraceLine<'_>,
        out: &mut Vec<u8>,
    ) -> Result<(), AllocError>
        requires split { SplitsLine text.now line.now.port line.now.number line.now.event line.now.answer.now }
        requires empty { out.old.items ≡ [] }
        ensures ok { OnOk result (TellsTraceLine self.old text.now out.new.items self.new) }
        ensures err { OnErr result (self.new ≡ self.old) }
    {
        let port = usize::from(line.port);
        let frames = frames_with(&line.event, self.frames[port]);
        self.push_at(frames, text, out)?;
        self.frames[port] = frames;
        Ok(())
    }

    /// Writes that light came or went at a simulated unit in this form, with the time of the only port if that is told.
    fn push_light(
        &self,
        light: &LightLine<'_>,
        text: &[u8],
        out: &mut Vec<u8>,
    ) -> Result<(), AllocError>
        requires { out.old.items ≡ [] }
        ensures { OnOk result (out.new.items
            ≡ light_told self.now.form self.now.timed (slice_index self.now.frames 0)
            (record { place = light.now.place.now; is_lit = light.now.is_lit }) text.now) }
    {
        let frames = self.frames[ONLY_PORT];
        match self.form {
            Form::Plain | Form::Words => {
                push_time_if(self.timed, frames, out)?;
                push_plain(text, out)
            }
            Form::Json => write_light(shown(self.timed, frames), light, out),
        }
    }

    /// Writes a line that is none of a trace in its form.
    fn push_other(&self, text: &[u8], out: &mut Vec<u8>) -> Result<(), AllocError>
        requires { out.old.items ≡ [] }
        ensures { OnOk result (out.new.items ≡ other_told self.now text.now) }
    {
        match light_in(text) {
            Some(light) => self.push_light(&light, text, out),
            None => push_unread(self.form, text, out),
        }
    }

    /// Writes a line of a trace in its form, with its port's time if that is told.
    fn push_at(&self, frames: u64, text: &[u8], out: &mut Vec<u8>) -> Result<(), AllocError>
        requires { out.old.items ≡ [] }
        ensures { OnOk result (TellsAt self.now frames text.now out.new.items) }
    {
        match self.form {
            Form::Plain => {
                push_time_if(self.timed, frames, out)?;
                push_plain(text, out)
            }
            Form::Words => {
                push_time_if(self.timed, frames, out)?;
                push_words(self.mask, text, out)
            }
            Form::Json => write_object(self.alloc, self.mask, shown(self.timed, frames), text, out),
        }
    }
}
