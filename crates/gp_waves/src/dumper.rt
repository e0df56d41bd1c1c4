//! The lines of a trace or a log, one after another.
ghost use Rattle.std.specs.Prelude.{◌≡◌, IfOk};
ghost use Rattle.gp_waves.specs.Dumping.{opened};

use crate::hearing::Waves;
use crate::options::WavesOptions;
use crate::writing::Writing;
use gp_explain::NoLine;
use gp_finding::Codes;
use gp_times::PortTimes;
use std::alloc::{AllocError, Global};
use std::marker::Model;

/// Is given the lines of a trace or a log, one after another. The first line that is none ends it. Contracts see how
/// many lines came, whether one of them says anything, what ended it, the times of the ports, with how many lines fell,
/// the frames that are dumped, the mask of the codes, how many codes came, with how many of them are garbled, what is
/// kept of the ports with the changes that are held back, and what is written of the dump.
#[derive(Drop)]
pub struct Dumper {
    pub(crate) waves: Waves,
    pub(crate) times: PortTimes,
    pub(crate) codes: Codes,
    pub(crate) writing: Writing,
    pub(crate) buffer: Vec<u8>,
    pub(crate) lines: u64,
    pub(crate) heard: bool,
    pub(crate) ended: Option<NoLine>,
}

impl Model for Dumper {
    ghost use Rattle.gp_waves.specs.Dumping.{WavesState};
    ghost use Rattle.gp_waves.specs.Hearing.{fibre_of};

    ghost Value = { WavesState };

    ghost view = { λ s. record {
      lines = s.lines;
      heard = s.heard;
      ended = s.ended;
      times = s.times;
      frames = s.waves.options.frames;
      mask = s.waves.options.mask;
      codes = s.codes;
      fibre = fibre_of s.waves;
      written = s.writing;
    } };
}

impl Dumper {
    /// Makes one to which no line came. Fails only where there is no memory.
    pub fn begin(alloc: Global, options: &WavesOptions) -> Result<Dumper, AllocError>
        ensures { IfOk result (λ dumper. dumper ≡ opened options.now.frames options.now.mask) }
    {
        Ok(Dumper {
            waves: Waves::begin(alloc, options)?,
            times: PortTimes::begin(),
            codes: Codes::none(),
            writing: Writing::new(),
            buffer: Vec::new(alloc),
            lines: 0,
            heard: false,
            ended: None,
        })
    }

    /// Why it ended, if it did: the line that came last is none of a trace or a log.
    pub fn ended(&self) -> Option<NoLine>
        ensures { result ≡ self.now.ended }
    {
        self.ended
    }

    /// How many lines came, up to the one that ended it.
    pub fn lines(&self) -> u64
        ensures { result ≡ self.now.lines }
    {
        self.lines
    }
}
