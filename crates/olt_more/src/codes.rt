//! The codes that the units of a job send, under either mask, and one that is garbled.
use gp_ploam::{ASSIGN_ALLOC_ID, BROADCAST_ONU, Mask, Serial, Up, encode_up};

/// Makes the code by which a unit says its serial number, with its ONU-ID or, where it has none, with 255.
pub(crate) fn serial_number(onu: u8, serial: Serial, mask: Mask) -> [u8; 13] {
    let message = Up::SerialNumber {
        onu,
        serial,
        random: 0,
        flags: 0,
    };
    encode_up(&message, mask)
}

/// Makes the code of a unit without an ONU-ID.
pub(crate) fn searched(serial: Serial, mask: Mask) -> [u8; 13] {
    serial_number(BROADCAST_ONU, serial, mask)
}

/// Makes the code of a unit that has nothing to say.
pub(crate) fn nothing(onu: u8, mask: Mask) -> [u8; 13] {
    encode_up(&Up::NoMessage { onu }, mask)
}

/// Makes the code of a unit that acknowledges an Alloc-ID.
pub(crate) fn acknowledged(onu: u8, mask: Mask) -> [u8; 13] {
    let message = Up::Acknowledge {
        onu,
        id: ASSIGN_ALLOC_ID,
        copy: [onu, ASSIGN_ALLOC_ID, 16, 0, 1, 0, 0, 0, 0],
    };
    encode_up(&message, mask)
}

/// Makes a code whose check octet is wrong.
pub(crate) fn garbled(onu: u8, mask: Mask) -> [u8; 13] {
    let mut code = nothing(onu, mask);
    code[12] ^= 1;
    code
}
