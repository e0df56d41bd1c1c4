//! Scripts that are played and summed.
ghost use Rattle.std.specs.Prelude.{◌≡◌, IfOk, length};
ghost use Rattle.gp_script.specs.Playable.{IsPlayable};
ghost use Rattle.gp_script.specs.View.{script_view};

use crate::compared::{Field, Wanted, has_field, is_text, is_text_or_refused};
use crate::streams::ShortWriter;
use gp_replay::PlayFault;
use gp_script::{Script, read_script};
use gp_summary::{Ended, SummaryForm, Summed, play_summed};
use gp_tally::Began;
use std::alloc::{AllocError, Global};
use std::io;
use std::io::Write;
use std::marker::Brand;

/// One unit is found and ranged.
const ONE_UNIT: &str = r#"
licences = 3
[[port]]
cycles = 1
admit = ["ABCD00000001"]
[[event]]
port = 0
command = "search"
[[event]]
port = 0
frames = 5
[[event]]
port = 0
at = 100000
say = "serial"
serial = "ABCD00000001"
[[event]]
port = 0
frames = 4
[[event]]
port = 0
at = 100000
say = "serial"
serial = "ABCD00000001"
onu = 0
[[event]]
port = 0
frames = 4
"#;

/// A unit asks, and there is no licence for it.
const NO_LICENCE: &str = r#"
licences = 0
[[port]]
cycles = 1
admit = ["ABCD00000001"]
[[event]]
port = 0
command = "search"
[[event]]
port = 0
frames = 5
[[event]]
port = 0
at = 100000
say = "serial"
serial = "ABCD00000001"
"#;

/// How many lines its trace has: a command, thirteen frames and two bursts.
const LINES: usize = 16;

/// What is told of it.
const TOLD: &str = "port 0: units 1, standby, frames 13, bursts 2, commands 1\n\
    unit ABCD00000001: operating, onu 0, eqd 211040, found 1, ranged 1, lost 0, last frame 9, took frames 4\n\
    licences: free 2, in use 1\n";

/// How a play ended, and the writer that its trace went to.
type Played<W> = (Ended, W);

/// Plays a script with a writer.
fn played_by<B: Began, W: Write + Drop>(
    alloc: Global,
    script: Script,
    form: SummaryForm,
    writer: W,
) -> Result<Played<W>, AllocError>
    requires playable { IsPlayable (script_view script) }
    requires held { W.contents writer ≡ B.held }
    requires mask { B.mask ≡ script.mask }
    requires ports { B.ports ≡ length script.ports.items }
{
    let Summed { ended, counting } = play_summed::<B, W>(alloc, script, form, writer)?;
    let (writer, _) = counting.into_parts();
    Ok((ended, writer))
}

/// Plays the script of a text with a writer.
fn played<W: Write + Drop>(
    alloc: Global,
    text: &str,
    form: SummaryForm,
    writer: W,
) -> Result<Played<W>, AllocError> {
    match read_script(alloc, text.as_bytes()) {
        Ok(script) => played_by::<Brand, W>(alloc, script, form, writer),
        Err(_) => Err(AllocError),
    }
}

/// Counts the lines of what it takes, and keeps nothing.
#[derive(Drop)]
struct LineCount {
    lines: usize,
}

impl Write for LineCount {
    fn write(&mut self, bytes: &[u8]) -> io::Result<usize> {
        let lines = bytes.iter().filter(|octet| **octet == b'\n').count();
        self.lines = self.lines.saturating_add(lines);
        Ok(bytes.len())
    }

    fn flush(&mut self) -> io::Result<()> {
        Ok(())
    }
}

/// Plays a script, and counts the lines of its trace.
fn counted(alloc: Global, text: &str, form: SummaryForm) -> Result<Played<LineCount>, AllocError> {
    played(alloc, text, form, LineCount { lines: 0 })
}

/// Tells whether all was played, with so many lines.
fn are_played(played: &Played<LineCount>, lines: usize) -> bool {
    played.0.played == Ok(()) && played.1.lines == lines
}

/// Tells whether a script is played with so many lines, and summed so.
fn is_summed(alloc: Global, text: &str, lines: usize, wanted: &str) -> Result<bool, AllocError> {
    let played = counted(alloc, text, SummaryForm::Text)?;
    Ok(are_played(&played, lines) && is_text(&played.0.summary, wanted))
}

#[test]
fn a_unit_that_was_never_found_asks(rt: HostRuntime) {
    let wanted =
        "port 0: units 0, acquisition 0, frames 5, bursts 1, commands 1, refused no-licence 1\n\
        unit ABCD00000001: asking, found 0, ranged 0, lost 0, last frame 5\n\
        licences: free 0, in use 0\n";
    assert!(rt; is_summed(rt.alloc(), NO_LICENCE, 7, wanted) == Ok(true));
}

#[test]
fn one_unit_is_told(rt: HostRuntime) {
    assert!(rt; is_summed(rt.alloc(), ONE_UNIT, LINES, TOLD) == Ok(true));
}

/// Tells whether one unit is played, and summed or memory for that refused; None where nothing is played.
fn is_played_if_ample(alloc: Global) -> Option<bool> {
    let played = counted(alloc, ONE_UNIT, SummaryForm::Text).ok()?;
    Some(are_played(&played, LINES) && is_text_or_refused(&played.0.summary, TOLD))
}

/// Where a request for memory is refused, nothing is played; or all of it is, and there is no summary.
#[test]
fn memory_short_or_ample(rt: HostRuntime) {
    assert!(rt; is_played_if_ample(rt.alloc()) != Some(false));
}

/// What is told of one unit, as JSON.
fn objects(alloc: Global) -> Result<Vec<u8>, AllocError> {
    let (ended, _) = counted(alloc, ONE_UNIT, SummaryForm::Json)?;
    ended.summary
}

/// Tells whether that has this field.
fn is_told_with(alloc: Global, field: &Field) -> Result<bool, AllocError> {
    let text = objects(alloc)?;
    has_field(alloc, &text, 3, field)
}

const FIELDS: [Field; 20] = [
    (0, "port", Wanted::Number(0)),
    (0, "units", Wanted::Number(1)),
    (0, "frames", Wanted::Number(13)),
    (0, "bursts", Wanted::Number(2)),
    (0, "commands", Wanted::Number(1)),
    (0, "refused_stray", Wanted::Number(0)),
    (0, "refused_already-searching", Wanted::Number(0)),
    (0, "alarm_LOS", Wanted::Number(0)),
    (0, "alarm_DG", Wanted::Number(0)),
    (1, "onu", Wanted::Number(0)),
    (1, "eqd", Wanted::Number(211_040)),
    (1, "found", Wanted::Number(1)),
    (1, "ranged", Wanted::Number(1)),
    (1, "lost", Wanted::Number(0)),
    (1, "last_frame", Wanted::Number(9)),
    (1, "took_frames", Wanted::Number(4)),
    (1, "alarm_SUF", Wanted::Number(0)),
    (1, "state", Wanted::Text("operating")),
    (2, "free", Wanted::Number(2)),
    (2, "in_use", Wanted::Number(1)),
];

#[test]
fn one_unit_is_read_as_json(rt: HostRuntime) {
    for field in &FIELDS {
        assert!(rt; is_told_with(rt.alloc(), field) == Ok(true), "{}", field.1);
    }
}

/// Tells whether a play ends with a failed write where the writer has so much room, and the writer has that.
fn is_cut_at(alloc: Global, room: usize) -> Result<bool, AllocError> {
    let taken = Vec::new(alloc);
    let writer = ShortWriter { taken, room };
    let (ended, writer) = played(alloc, ONE_UNIT, SummaryForm::Text, writer)?;
    Ok(ended.played == Err(PlayFault::Write) && writer.taken.len() == room)
}

#[test]
fn a_write_fails(rt: HostRuntime) {
    for room in [0, 1, 100] {
        assert!(rt; is_cut_at(rt.alloc(), room) == Ok(true), "{room}");
    }
}
