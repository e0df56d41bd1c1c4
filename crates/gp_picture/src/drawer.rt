//! The lines of a trace or a log, one after another.
ghost use Rattle.std.specs.Prelude.{◌≡◌, IfOk};
ghost use Rattle.gp_picture.specs.Drawing.{opened};

use crate::options::PictureOptions;
use crate::picture::Picture;
use gp_explain::NoLine;
use gp_finding::Codes;
use gp_ploam::Mask;
use gp_times::PortTimes;
use line_columns::Layout;
use std::alloc::{AllocError, Global};
use std::marker::Model;

/// Is given the lines of a trace or a log, one after another. The first line that is none ends it. Contracts see how
/// many lines came, whether one of them says anything, what ended it, the times of the ports, with how many lines fell,
/// the mask of the codes, how many codes came, with how many of them are garbled, and how lines are laid out.
#[derive(Drop)]
pub(crate) struct Drawer {
    pub(crate) picture: Picture,
    pub(crate) times: PortTimes,
    pub(crate) mask: Mask,
    pub(crate) codes: Codes,
    pub(crate) layout: Layout,
    /// Room for what is read of a line with a layout.
    pub(crate) plain: Vec<u8>,
    pub(crate) lines: u64,
    pub(crate) heard: bool,
    pub(crate) ended: Option<NoLine>,
}

impl Model for Drawer {
    ghost use Rattle.gp_picture.specs.Drawing.{DrawState};

    ghost Value = { DrawState };

    ghost view = { λ s. record {
      lines = s.lines;
      heard = s.heard;
      ended = s.ended;
      times = s.times;
      mask = s.mask;
      codes = s.codes;
      layout = s.layout;
    } };
}

impl Drawer {
    /// Makes one to which no line came. Fails only where there is no memory.
    pub(crate) fn begin(
        alloc: Global,
        options: &PictureOptions,
        layout: Layout,
    ) -> Result<Drawer, AllocError>
        ensures { IfOk result (λ drawer. drawer ≡ opened options.now.mask layout) }
    {
        Ok(Drawer {
            picture: Picture::begin(alloc, options)?,
            times: PortTimes::begin(),
            mask: options.mask,
            codes: Codes::none(),
            layout,
            plain: Vec::new(alloc),
            lines: 0,
            heard: false,
            ended: None,
        })
    }
}
