//! Descriptors that a program begins without: what it opens must not take their place.
use std::io;
use std::rt::Files;

/// Opens the top folder. This is done as often as there are standard streams, before anything else is opened.
///
/// Where standard input, output or error is closed, the next that is opened takes its descriptor: a script would be
/// read again as the input, or be written into. A folder can neither be read nor written, so each such stream fails.
/// What is given back has to be kept for as long as anything is read or written. Where the folder can't be opened,
/// nothing is held.
pub(crate) fn hold<R: Files>(rt: &R) -> io::Result<R::File> {
    std::fs::open(rt, "/")
}
