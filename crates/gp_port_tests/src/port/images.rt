//! Images of a port that has all that an image can have.
ghost use Rattle.std.specs.Prelude.{◌≡◌};

use super::lines::{A, B, B_RANGED, C, D, FAR, GARBLED, Played, USUAL, Wrong};
use super::parts::Part;
use gp_licence::MAX_LICENCES;
use gp_machine::{Command, Entry, Event, Phase, Refusal, Reply};
use gp_ploam::{Down, Mask, Serial, encode_up};
use gp_port::{Common, Grant, ImageFault, OpenFault, PortCore, PortFollower, PortImage, RowView};
use std::alloc::Global;
use std::marker::Brand;
use std::sync::ledger::{Blank, Ledger};

/// What comes before the first image: the port has all that an image can have.
const BEFORE: [Part; 4] = [Part::Searches, Part::FindsA, Part::RangesA, Part::AllAtOnce];

/// One event after another, each of which changes the port, with its reply.
fn changes() -> [(Event, Reply); 8] {
    let ranged = Event::Burst {
        at: FAR,
        bytes: encode_up(&B_RANGED, Mask::Plain),
    };
    let eqd = 211_040;
    [
        // The window has seen something.
        (GARBLED, Reply::Refused(Refusal::Garbled)),
        // A search is wanted.
        (Event::Command(Command::Search), Reply::Searching),
        // D was not disabled: three copies more are owed.
        (Event::Command(Command::Enable(D)), Reply::Enabled),
        // C is not disabled any more.
        (Event::Command(Command::Enable(C)), Reply::Enabled),
        // B operates, and the window is shut.
        (ranged, Reply::Ranged { onu: 1, eqd }),
        // A and B are ranging.
        (Event::Command(Command::PopupAll), Reply::PoppedUpAll(2)),
        // A is removed, and its ONU-ID cools.
        (
            Event::Command(Command::Deactivate(A)),
            Reply::Deactivated(0),
        ),
        // A copy is sent, and what cools has a frame less.
        (Event::Frame, Reply::Ticked),
    ]
}

/// Tells whether a port that begins at the image makes the step of the entry, and whether it stands where the port
/// does then.
fn follows<L: Ledger>(
    alloc: Global,
    image: &PortImage,
    entry: &Entry,
    port: &PortCore<L>,
) -> Result<(bool, bool), ImageFault> {
    let mut follower = PortFollower::resume(alloc, image)?;
    let followed = follower.follow(entry);
    let arrived = follower.stands_as(port);
    follower.close();
    Ok((followed, arrived))
}

/// The same entry with a licence more left.
fn with_more_left(entry: &Entry) -> Entry {
    Entry {
        purse_out: entry.purse_out.wrapping_add(1),
        ..*entry
    }
}

/// Tells whether a port that begins at the image makes the step of the entry, and of the entry with a licence more
/// left; and whether it stands where the port does after the first of these.
fn told_of_entry<L: Ledger>(
    alloc: Global,
    image: &PortImage,
    entry: &Entry,
    port: &PortCore<L>,
) -> Result<[bool; 3], ImageFault> {
    let (followed, arrived) = follows(alloc, image, entry, port)?;
    let (misled, _) = follows(alloc, image, &with_more_left(entry), port)?;
    Ok([followed, misled, arrived])
}

/// Tells of an image and one event after it: whether the port answered so; whether the image stood for the port
/// before the event and afterwards; whether a port that begins at the image makes the step of the entry, and of the
/// entry with a licence more left; and whether it stands where the port does after the first of these.
fn told_of<L: Ledger>(
    alloc: Global,
    played: &mut Played<L>,
    event: Event,
    reply: Reply,
) -> Result<[bool; 6], ImageFault> {
    let image = played.port.image(alloc)?;
    told_from(alloc, &image, played, event, reply)
}

/// Tells the same from the image before the event.
fn told_from<L: Ledger>(
    alloc: Global,
    image: &PortImage,
    played: &mut Played<L>,
    event: Event,
    reply: Reply,
) -> Result<[bool; 6], ImageFault> {
    let before = played.port.stands_for(image);
    let entry = played.step(event);
    let after = played.port.stands_for(image);
    let [followed, misled, arrived] = told_of_entry(alloc, image, &entry, &played.port)?;
    let replied = entry.answer.reply == reply;
    Ok([replied, before, after, followed, misled, arrived])
}

const AS_IT_HAS_TO_BE: [bool; 6] = [true, true, false, true, false, true];

/// Makes each event, and gives the place of the first of which an image tells otherwise, and what it tells.
fn told_otherwise<L: Ledger>(
    alloc: Global,
    played: &mut Played<L>,
) -> Result<Option<(usize, [bool; 6])>, ImageFault> {
    for (place, (event, reply)) in changes().iter().enumerate() {
        let told = told_of(alloc, played, *event, *reply)?;
        if told != AS_IT_HAS_TO_BE {
            return Ok(Some((place, told)));
        }
    }
    Ok(None)
}

/// Plays a port up to where it has all, and then each event more: the first line that it answers otherwise, and the
/// first event of which an image tells otherwise.
fn wrong_in_images<L: Ledger>(
    alloc: Global,
    blank: Blank,
) -> Result<(Wrong, Result<Option<(usize, [bool; 6])>, ImageFault>), OpenFault>
    requires name { blank.name ≡ L.name }
    requires parts { (blank.parts ≡ L.parts) × (L.parts ≡ MAX_LICENCES) }
{
    let mut played = Played::<L>::begin(alloc, blank, USUAL)?;
    let wrong = played.first_wrong(&BEFORE);
    let told = told_otherwise(alloc, &mut played);
    played.close();
    Ok((wrong, told))
}

/// What the port knows of A, which operates, holds Alloc-ID 256 and gives 257 back.
fn row_of_a() -> RowView {
    let mut allocs = [None; 8];
    allocs[0] = Some((256, false));
    allocs[1] = Some((257, true));
    RowView {
        onu: 0,
        allocs,
        pending: Some(257),
        waiting: 0,
        phase: Phase::Operating {
            eqd: 211_040,
            dark: 0,
            garbled: 0,
        },
    }
}

/// What the port knows of B, which is ranging.
fn row_of_b() -> RowView {
    RowView {
        onu: 1,
        allocs: [None; 8],
        pending: None,
        waiting: 0,
        phase: Phase::Ranging {
            attempts: 0,
            seen: false,
        },
    }
}

/// Tells whether the unit with an ONU-ID is this one, and the image has this of it.
fn has_unit(image: &PortImage, onu: u8, serial: Serial, wanted: &RowView) -> bool {
    match image.unit_with(onu) {
        Some((found, row)) => found == serial && row.view() == *wanted,
        None => false,
    }
}

/// Tells whether this is what the image has of A.
fn is_row_of_a(image: &PortImage) -> bool {
    match image.row_of(&A) {
        Some(row) => row.view() == row_of_a(),
        None => false,
    }
}

/// Tells whether the image has A and B, and no other unit.
fn has_both(image: &PortImage) -> bool {
    image.rows() == 2
        && is_row_of_a(image)
        && image.row_of(&D).is_none()
        && has_unit(image, 0, A, &row_of_a())
        && has_unit(image, 1, B, &row_of_b())
        && image.unit_with(2).is_none()
}

/// Tells whether C alone is disabled.
fn disables_c(image: &PortImage) -> bool {
    !image.is_disabled(&A)
        && !image.is_disabled(&B)
        && image.is_disabled(&C)
        && !image.is_disabled(&D)
}

/// Tells whether the window is open in which B is ranged, and has seen something.
fn has_window(image: &PortImage) -> bool {
    match image.window() {
        Some(window) => { window.grant() == Grant::Range(1) && window.left() == 3 && window.seen() }
        None => false,
    }
}

/// Tells whether a search is wanted while B is measured, and A was polled last.
fn is_measuring(image: &PortImage) -> bool {
    image.common() == Common::Measuring
        && image.is_wanted()
        && image.timer() == 0
        && image.polled() == Some(0)
}

/// Tells whether six copies are owed: for the ONU-ID 2 that is taken back, and for C.
fn owes_six(image: &PortImage) -> bool {
    let owed = image.owed();
    owed.len_copies() == 6
        && owed.copy_at(2) == Some(Down::Deactivate { onu: 2 })
        && owed.copy_at(3) == Some(Down::DisableSerial { serial: C })
        && owed.copy_at(6).is_none()
}

/// Tells whether the ONU-ID 2 cools, 1 does not, and 254 is none.
fn cools_2(image: &PortImage) -> bool {
    image.frames_left(1) == Some(0)
        && image.frames_left(2) == Some(800)
        && image.frames_left(254).is_none()
}

/// Tells of each part of the image whether it is read as the rules have it, once a garbled burst was seen and a search
/// is wanted.
fn readings(image: &PortImage) -> [bool; 6] {
    [
        has_both(image),
        disables_c(image),
        has_window(image),
        is_measuring(image),
        owes_six(image),
        cools_2(image),
    ]
}

/// Reads an image of a port.
fn read<L: Ledger>(alloc: Global, played: &Played<L>) -> Result<[bool; 6], ImageFault> {
    let image = played.port.image(alloc)?;
    Ok(readings(&image))
}

/// Plays a port up to where it has all, and reads an image of it.
fn read_of_all<L: Ledger>(
    alloc: Global,
    blank: Blank,
) -> Result<Result<[bool; 6], ImageFault>, OpenFault>
    requires name { blank.name ≡ L.name }
    requires parts { (blank.parts ≡ L.parts) × (L.parts ≡ MAX_LICENCES) }
{
    let mut played = Played::<L>::begin(alloc, blank, USUAL)?;
    let _ = played.first_wrong(&BEFORE);
    played.step(GARBLED);
    played.step(Event::Command(Command::Search));
    let read = read(alloc, &played);
    played.close();
    Ok(read)
}

/// The same with a new ledger.
fn all_read(alloc: Global) -> Result<Result<[bool; 6], ImageFault>, OpenFault> {
    read_of_all::<Brand>(alloc, Blank::new(u64::from(MAX_LICENCES)))
}

#[test]
fn an_image_is_read(rt: HostRuntime) {
    assert!(rt; all_read(rt.alloc()) == Ok(Ok([true; 6])));
}

/// The first line that a new port answers otherwise, and the first event of which an image tells otherwise.
fn wrong_in_all(
    alloc: Global,
) -> Result<(Wrong, Result<Option<(usize, [bool; 6])>, ImageFault>), OpenFault> {
    wrong_in_images::<Brand>(alloc, Blank::new(u64::from(MAX_LICENCES)))
}

/// Tells whether each line is answered as it has to be, and each image tells what it has to; or memory was refused for
/// the port, or for an image.
fn is_told(alloc: Global) -> bool {
    match wrong_in_all(alloc) {
        Ok((wrong, told)) => {
            wrong.is_none() && (told == Ok(None) || told == Err(ImageFault::OutOfMemory))
        }
        Err(fault) => fault == OpenFault::OutOfMemory,
    }
}

// Run with each allocation refused in turn (`rt try --test --fail-alloc N`).
#[test]
fn images_of_all_at_once(rt: HostRuntime) {
    assert!(rt; is_told(rt.alloc()));
}
