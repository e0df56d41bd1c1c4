//! A writer that fails, and memory that is refused.
use crate::made::{made, made_to, of_ports};
use gp_generate::GenerateFault;
use std::io;
use std::io::{ErrorKind, Write};

/// A writer that takes so many octets.
#[derive(Drop)]
struct ShortWriter {
    taken: Vec<u8>,
    room: usize,
}

impl Write for ShortWriter {
    fn write(&mut self, buffer: &[u8]) -> io::Result<usize> {
        match buffer.get(..self.room.min(buffer.len())) {
            Some(part) if self.room > 0 => {
                self.taken.extend_from_slice(part)?;
                self.room -= part.len();
                Ok(part.len())
            }
            _ => Err(io::Error::from(ErrorKind::Other)),
        }
    }

    fn flush(&mut self) -> io::Result<()> {
        Ok(())
    }
}

/// What was taken is a prefix of the script, and the fault is told.
#[test]
fn a_write_that_fails(rt: HostRuntime) {
    let wish = of_ports(4, 2_000);
    let whole = made(rt.alloc(), wish).unwrap_or(Vec::new(rt.alloc()));
    assert!(rt; whole.len() > 70_000);
    for room in [
        0,
        1,
        60_000,
        66_000,
        whole.len().saturating_sub(1),
        whole.len(),
    ] {
        let taken = Vec::new(rt.alloc());
        let Some((outcome, writer)) = made_to(rt.alloc(), wish, ShortWriter { taken, room }) else {
            assert!(rt; false);
            return;
        };
        let wanted = if room < whole.len() {
            Err(GenerateFault::Write)
        } else {
            Ok(())
        };
        assert!(rt; outcome == wanted, "{room}");
        assert!(rt;
            whole.as_slice().get(..room) == Some(writer.taken.as_slice()),
            "{room}"
        );
    }
}

/// Where an allocation was made to fail it is told, or there is no text; else the script is whole.
#[test]
fn memory_short_or_ample(rt: HostRuntime) {
    let Some((outcome, text)) = made_to(rt.alloc(), of_ports(4, 3), Vec::new(rt.alloc())) else {
        return;
    };
    match outcome {
        Ok(()) => assert!(rt; text.as_slice().ends_with(b"\n\n")),
        Err(_) => assert!(rt; text.is_empty()),
    }
}
