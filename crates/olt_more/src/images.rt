//! Digests of images and of pieces: all that their calls tell.
use crate::digest::Digest;
use crate::fields::{add_entry, add_message, add_row, add_serial, grant_word, word_of};
use gp_common::Common;
use gp_journal::Piece;
use gp_machine::{PortConfig, Row};
use gp_ploam::{Mask, ONU_IDS};
use gp_port::PortImage;

/// Adds what a port was opened with.
fn add_config(digest: &mut Digest, config: &PortConfig) {
    let mask = match config.mask {
        Mask::Plain => 0,
        Mask::Coset => 85,
    };
    digest.add(word_of(mask, config.max_units, config.alloc_last, config.teqd));
    digest.add(word_of(config.cycles, 0, config.quarantine, config.search_period));
    digest.add_octets(&config.overhead);
    for serial in config.admitted.as_slice() {
        add_serial(digest, *serial);
    }
}

/// Adds what a port did for all units together.
fn add_common(digest: &mut Digest, image: &PortImage) {
    let common = match image.common() {
        Common::Standby => 1,
        Common::Acquisition(windows) => word_of(2, windows, 0, 0),
        Common::Measuring => 3,
    };
    digest.add(common);
    digest.add(word_of(u8::from(image.is_wanted()), 0, 0, image.timer()));
    digest.add(match image.polled() {
        Some(onu) => word_of(1, onu, 0, 0),
        None => 0,
    });
    match image.window() {
        Some(window) => {
            digest.add(grant_word(&Some(window.grant()), 0));
            digest.add(word_of(window.left(), u8::from(window.seen()), 0, 0));
        }
        None => digest.add(0),
    }
}

/// Adds what a port knew of a unit, if it was active.
fn add_row_if(digest: &mut Digest, row: &Option<Row>) {
    match row {
        Some(row) => add_row(digest, row),
        None => digest.add(0),
    }
}

/// Adds what a port knew of each ONU-ID: its unit, or for how long it is kept free.
fn add_numbers(digest: &mut Digest, image: &PortImage) {
    digest.add(image.rows() as u64);
    for onu in 0..ONU_IDS {
        digest.add(match image.frames_left(onu) {
            Some(frames) => word_of(1, 0, frames, 0),
            None => 0,
        });
        if let Some((serial, row)) = image.unit_with(onu) {
            add_serial(digest, serial);
            add_row(digest, &row);
        }
    }
}

/// Adds what a port knew of each serial number that it admits.
fn add_admitted(digest: &mut Digest, image: &PortImage) {
    for serial in image.config().admitted.as_slice() {
        digest.add(u64::from(image.is_disabled(serial)));
        add_row_if(digest, &image.row_of(serial));
    }
}

/// Adds the copies that were still to be sent.
fn add_owed(digest: &mut Digest, image: &PortImage) {
    let owed = image.owed();
    let copies = owed.len_copies();
    digest.add(copies as u64);
    for place in 0..copies {
        match owed.copy_at(place) {
            Some(message) => add_message(digest, &message),
            None => digest.add(0),
        }
    }
}

/// Adds an image.
fn add_image(digest: &mut Digest, image: &PortImage) {
    add_config(digest, image.config());
    add_common(digest, image);
    add_numbers(digest, image);
    add_admitted(digest, image);
    add_owed(digest, image);
}

/// Adds a piece: its images, all its entries, and whether it ends in the state that it says.
pub(crate) fn add_piece(digest: &mut Digest, piece: &Piece) {
    digest.add(piece.first);
    digest.add(piece.len());
    if let Some(from) = &piece.from {
        add_image(digest, from);
    }
    add_image(digest, &piece.to);
    for entry in piece.entries.as_slice() {
        add_entry(digest, entry);
    }
    let end = piece.first.wrapping_add(piece.len());
    digest.add(u64::from(piece.joins(end, &piece.to)));
    if let Some(entry) = piece.entry_at(end.wrapping_sub(1)) {
        add_entry(digest, &entry);
    }
}
