//! What is kept of one port, and what something that is heard there changes of it.
ghost use Rattle.std.specs.Prelude.{◌⊎◌, IfErr, Some};
ghost use Rattle.gp_picture.specs.Drawing.{IsBurst};
ghost use Rattle.gp_picture.specs.Faults.{DrawingFails};

use crate::fault::PictureFault;
use crate::lane::Lane;
use crate::mark::{Mark, MarkKind, Row};
use crate::moment::Place;
use crate::options::PictureOptions;
use crate::room::Room;
use crate::state::{Cause, UnitState};
use crate::touched::{Touched, units_touched};
use crate::windows::{MOST_OPEN, Window, Windows};
use gp_finding::heard_in;
use gp_log::Said;
use gp_ploam::Serial;
use gp_tally::kind_told;
use gp_watch::{Heard, PortWatch, Settings};
use std::alloc::{AllocError, Global};
use std::collections::BTreeMap;

/// What is kept of one port.
#[derive(Drop)]
pub(crate) struct Port {
    watch: PortWatch,
    windows: Windows,
    pub(crate) unanswered: Row,
    pub(crate) alarms: Row,
    pub(crate) findings: Row,
    /// The lanes of its units, in the order in which they were first heard.
    pub(crate) lanes: Vec<Lane>,
    /// Where the lane of each serial number is among them.
    places: BTreeMap<Serial, usize>,
}

/// Gives the mark of what this line tells.
fn mark_at(kind: MarkKind, place: &Place<'_>) -> Mark {
    Mark {
        kind,
        at: place.moment(),
        last: place.frame,
        more: 0,
    }
}

impl Port {
    /// Nothing was heard.
    pub(crate) fn begin(alloc: Global, midway: bool) -> Result<Port, AllocError> {
        Ok(Port {
            watch: PortWatch::begin(alloc, midway)?,
            windows: Windows::new(),
            unanswered: Row::new(alloc),
            alarms: Row::new(alloc),
            findings: Row::new(alloc),
            lanes: Vec::new(alloc),
            places: BTreeMap::new(alloc),
        })
    }

    /// Marks a window that closed without an answer, unless it did so behind the last frame that is drawn.
    fn mark_unanswered(
        &mut self,
        options: &PictureOptions,
        room: &mut Room,
        window: &Window,
    ) -> Result<(), AllocError> {
        if window.end() > options.frames.to {
            return Ok(());
        }
        let mark = Mark {
            kind: MarkKind::Unanswered(window.grant),
            at: window.at,
            last: window.end(),
            more: 0,
        };
        self.unanswered.keep(room, mark)
    }

    /// Marks the windows that closed by this frame without an answer.
    fn close_windows(
        &mut self,
        options: &PictureOptions,
        room: &mut Room,
        now: u64,
    ) -> Result<(), AllocError> {
        for _ in 0..MOST_OPEN {
            let Some(window) = self.windows.take_past(now) else {
                return Ok(());
            };
            self.mark_unanswered(options, room, &window)?;
        }
        Ok(())
    }

    /// Opens the window that is granted, or closes the one that is answered.
    fn note_window(&mut self, place: &Place<'_>, heard: &Heard) {
        match heard {
            Heard::Grant(grant) => self.windows.open(Window {
                grant: *grant,
                at: place.moment(),
            }),
            Heard::Up {
                message: Some(message),
                ..
            } => self.windows.answer(message),
            _ => {}
        }
    }

    /// Marks the rules that are broken.
    fn mark_broken(
        &mut self,
        room: &mut Room,
        settings: &Settings,
        place: &Place<'_>,
        heard: &Heard,
    ) -> Result<(), AllocError> {
        let broken = self.watch.broken(settings, heard);
        for rule in broken.as_slice() {
            let mark = mark_at(MarkKind::Broken(*rule), place);
            self.findings.keep(room, mark)?;
        }
        Ok(())
    }

    /// Gives the place of a unit's lane, and makes one where there is none. None where there is no room for it.
    fn lane_place(&mut self, room: &mut Room, serial: Serial) -> Result<Option<usize>, AllocError> {
        if let Some(at) = self.places.get(&serial) {
            return Ok(Some(*at));
        }
        if !room.take_lane() {
            return Ok(None);
        }
        let at = self.lanes.len();
        self.lanes.push(Lane::new(room.alloc, serial))?;
        self.places.insert(serial, at)?;
        Ok(Some(at))
    }

    /// Draws what a unit does from here on, unless it does so already.
    fn begin_state(
        &mut self,
        room: &mut Room,
        place: &Place<'_>,
        serial: Serial,
        state: UnitState,
    ) -> Result<(), AllocError> {
        let Some(at) = self.lane_place(room, serial)? else {
            return Ok(());
        };
        match self.lanes.get_mut(at) {
            Some(lane) => lane.change(room, place, state),
            None => Ok(()),
        }
    }

    /// Draws that a unit asks, unless it holds an ONU-ID.
    fn draw_ask(
        &mut self,
        room: &mut Room,
        place: &Place<'_>,
        serial: Serial,
    ) -> Result<(), AllocError> {
        let state = UnitState::of(&self.watch, &serial).unwrap_or(UnitState::Asking);
        self.begin_state(room, place, serial, state)
    }

    /// Draws what a unit does behind a message that touches it.
    fn draw_one(
        &mut self,
        room: &mut Room,
        place: &Place<'_>,
        serial: Serial,
        cause: Cause,
    ) -> Result<(), AllocError> {
        if let Some(state) = UnitState::of(&self.watch, &serial) {
            return self.begin_state(room, place, serial, state);
        }
        let Some(at) = self.places.get(&serial).copied() else {
            return Ok(());
        };
        match self.lanes.get_mut(at) {
            Some(lane) => lane.remove(room, place, cause),
            None => Ok(()),
        }
    }

    /// Draws what all units do behind a message that touches all.
    fn draw_all(
        &mut self,
        room: &mut Room,
        place: &Place<'_>,
        cause: Cause,
    ) -> Result<(), AllocError> {
        for lane in self.lanes.iter_mut() {
            match UnitState::of(&self.watch, &lane.serial) {
                Some(state) => lane.change(room, place, state)?,
                None => lane.remove(room, place, cause)?,
            }
        }
        Ok(())
    }

    /// Draws what the units do that a message touched.
    fn draw_touched(
        &mut self,
        room: &mut Room,
        place: &Place<'_>,
        touched: Touched,
    ) -> Result<(), AllocError> {
        match touched {
            Touched::Nobody => Ok(()),
            Touched::Asks(serial) => self.draw_ask(room, place, serial),
            Touched::One(serial, cause) => self.draw_one(room, place, serial, cause),
            Touched::Assigned(serial, before) => {
                if let Some(before) = before {
                    self.draw_one(room, place, before, Cause::Replaced)?;
                }
                self.draw_one(room, place, serial, Cause::Replaced)
            }
            Touched::All(cause) => self.draw_all(room, place, cause),
        }
    }

    /// Hears what is said by what is known before it, and draws it.
    fn hear(
        &mut self,
        options: &PictureOptions,
        room: &mut Room,
        number: usize,
        place: &Place<'_>,
        said: &Said,
    ) -> Result<(), PictureFault>
        ensures { IfErr result (DrawingFails (IsBurst (Some said.now))) }
    {
        let heard = heard_in(options.mask, said);
        self.note_window(place, &heard);
        self.mark_broken(room, &options.settings(number), place, &heard)?;
        let touched = units_touched(&self.watch, &heard);
        self.watch.hear(&heard)?;
        self.draw_touched(room, place, touched)?;
        Ok(())
    }

    /// Hears what is said, if something is.
    fn hear_maybe(
        &mut self,
        options: &PictureOptions,
        room: &mut Room,
        number: usize,
        place: &Place<'_>,
        said: &Option<Said>,
    ) -> Result<(), PictureFault>
        ensures { IfErr result (DrawingFails (IsBurst said.now)) }
    {
        match said {
            Some(said) => self.hear(options, room, number, place, said),
            None => Ok(()),
        }
    }

    /// Hears a line of a log. One whose time is before the port's is only marked. Behind the last frame that is drawn
    /// only time is counted.
    pub(crate) fn hear_log(
        &mut self,
        options: &PictureOptions,
        room: &mut Room,
        number: usize,
        place: &Place<'_>,
        falls: bool,
        said: &Said,
    ) -> Result<(), PictureFault>
        ensures { IfErr result (DrawingFails (IsBurst (Some said.now))) }
    {
        self.close_windows(options, room, place.frame)?;
        if place.frame > options.frames.to {
            return Ok(());
        }
        if falls {
            self.findings.keep(room, mark_at(MarkKind::Time, place))?;
            return Ok(());
        }
        self.hear(options, room, number, place, said)
    }

    /// Marks the alarm that a line of a trace tells, a frame's or a burst's, if it tells one.
    fn mark_alarm(&mut self, room: &mut Room, place: &Place<'_>) -> Result<(), AllocError> {
        match kind_told(place.text) {
            Some(kind) => self
                .alarms
                .keep(room, mark_at(MarkKind::Alarm(kind), place)),
            None => Ok(()),
        }
    }

    /// Hears a line of a trace: what it says, one behind the other. Behind the last frame that is drawn only frames are
    /// counted.
    pub(crate) fn hear_trace(
        &mut self,
        options: &PictureOptions,
        room: &mut Room,
        number: usize,
        place: &Place<'_>,
        first: &Option<Said>,
        second: &Option<Said>,
    ) -> Result<(), PictureFault>
        ensures { IfErr result (DrawingFails (IsBurst first.now ⊎ IsBurst second.now)) }
    {
        self.close_windows(options, room, place.frame)?;
        if place.frame > options.frames.to {
            return Ok(());
        }
        self.hear_maybe(options, room, number, place, first)?;
        self.hear_maybe(options, room, number, place, second)?;
        self.mark_alarm(room, place)?;
        Ok(())
    }

    /// Keeps everything anew, in the columns of this room.
    pub(crate) fn keep_anew(&mut self, room: &mut Room) -> Result<(), AllocError> {
        self.unanswered.keep_anew(room)?;
        self.alarms.keep_anew(room)?;
        self.findings.keep_anew(room)?;
        for lane in self.lanes.iter_mut() {
            lane.keep_anew(room)?;
        }
        Ok(())
    }
}
