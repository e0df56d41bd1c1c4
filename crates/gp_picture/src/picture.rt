//! All that is drawn, kept until the input has ended: where it is more than there is room for, columns become wider.
ghost use Rattle.std.specs.Prelude.{IfErr};
ghost use Rattle.gp_picture.specs.Drawing.{TellsBurst};
ghost use Rattle.gp_picture.specs.Faults.{DrawingFails};

use crate::fault::PictureFault;
use crate::moment::{LineText, Place};
use crate::options::PictureOptions;
use crate::port::Port;
use crate::room::Room;
use gp_lines::PORTS;
use gp_log::LogLine;
use gp_times::PortTimes;
use std::alloc::{AllocError, Global};

/// How often columns are made wider at most: 64 bits hold no more frames.
const MOST_WIDENINGS: usize = 64;

/// All that is drawn.
#[derive(Drop)]
pub(crate) struct Picture {
    pub(crate) options: PictureOptions,
    pub(crate) room: Room,
    /// The ports that there may be.
    pub(crate) ports: Vec<Port>,
}

/// Opens each port: nothing was heard.
fn open(alloc: Global, midway: bool) -> Result<Vec<Port>, AllocError> {
    let mut ports = Vec::with_capacity(alloc, PORTS)?;
    for _ in 0..PORTS {
        ports.push(Port::begin(alloc, midway)?)?;
    }
    Ok(ports)
}

impl Picture {
    /// Nothing is drawn.
    pub(crate) fn begin(alloc: Global, options: &PictureOptions) -> Result<Picture, AllocError> {
        Ok(Picture {
            options: *options,
            room: Room::new(alloc, options.frames),
            ports: open(alloc, options.midway)?,
        })
    }

    /// Draws what a line says, at its port, whose time it has come to, unless it falls behind that.
    fn draw_line(
        &mut self,
        line: &LineText<'_>,
        read: &LogLine,
        times: &PortTimes,
        falls: bool,
    ) -> Result<(), PictureFault>
        ensures { IfErr result (DrawingFails (TellsBurst read.now)) }
    {
        let options = &self.options;
        let room = &mut self.room;
        match read {
            LogLine::Remark => Ok(()),
            LogLine::Log { port, said, .. } => {
                let number = usize::from(*port);
                let place = line.at(times.of(*port).frame());
                match self.ports.get_mut(number) {
                    Some(port) => port.hear_log(options, room, number, &place, falls, said),
                    None => Ok(()),
                }
            }
            LogLine::Trace {
                port,
                first,
                second,
                ..
            } => {
                let number = usize::from(*port);
                let place = line.at(times.of(*port).frame());
                match self.ports.get_mut(number) {
                    Some(port) => { port.hear_trace(options, room, number, &place, first, second) }
                    None => Ok(()),
                }
            }
        }
    }

    /// Keeps everything anew, in columns of twice as many frames.
    fn keep_anew(&mut self) -> Result<(), AllocError> {
        let mut room = self.room.wider();
        for port in self.ports.iter_mut() {
            port.keep_anew(&mut room)?;
        }
        self.room = room;
        Ok(())
    }

    /// Makes columns wider until little enough is kept.
    fn widen(&mut self) -> Result<(), AllocError> {
        for _ in 0..MOST_WIDENINGS {
            self.keep_anew()?;
            if self.room.is_free() {
                return Ok(());
            }
        }
        Ok(())
    }

    /// Draws what a line says that these times have heard. Memory is taken where something more is kept; where it is
    /// refused, a part of the line may have been drawn.
    pub(crate) fn line(
        &mut self,
        line: &LineText<'_>,
        read: &LogLine,
        times: &PortTimes,
        falls: bool,
    ) -> Result<(), PictureFault>
        ensures { IfErr result (DrawingFails (TellsBurst read.now)) }
    {
        self.draw_line(line, read, times, falls)?;
        if self.room.is_full() {
            self.widen()?;
        }
        Ok(())
    }
}
