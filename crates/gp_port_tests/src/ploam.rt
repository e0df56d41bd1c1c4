//! Codes and check values from outside, the limits of each field, and printed faults.
use crate::samples::{SERIAL, prints};
use gp_ploam::{
    Down, Mask, PloamFault, Up, crc, decode_down, decode_up, encode_down, encode_up, is_proper,
    is_proper_up,
};

/// Ten octets, each with another value.
const BODY: [u8; 10] = [9, 8, 7, 6, 5, 4, 3, 2, 1, 0];

/// Makes a code from its 26 hexadecimal digits, as a number.
fn code(number: u128) -> [u8; 13] {
    let [_, _, _, a, b, c, d, e, f, g, h, i, j, k, l, m] = number.to_be_bytes();
    [a, b, c, d, e, f, g, h, i, j, k, l, m]
}

#[test]
fn crc_check_values(rt: HostRuntime) {
    let octets = b"123456789";
    assert!(rt; crc(octets, Mask::Plain) == 0xf4);
    assert!(rt; crc(octets, Mask::Coset) == 0xa1);
}

/// A unit is given the ONU-ID 0. Octet 12, which its row leaves free, is not looked at.
#[test]
fn assign_onu_code(rt: HostRuntime) {
    let message = Down::AssignOnu {
        onu: 0,
        serial: SERIAL,
    };
    let unspecified = code(0xff030041424344000000017759);
    assert!(rt; encode_down(&message, Mask::Plain) == code(0xff03004142434400000001001b));
    assert!(rt; encode_down(&message, Mask::Coset) == code(0xff03004142434400000001004e));
    assert!(rt; decode_down(&unspecified, Mask::Plain) == Ok(message));
}

/// Octets that are no code downstream, and why.
const NOT_DOWN: [(&'static [u8], PloamFault); 5] = [
    (
        b"\xff\x03\x00\x41\x42\x43\x44\x00\x00\x00\x01\x00\x1a",
        PloamFault::Crc,
    ),
    (
        b"\x00\x05\x00\x00\x00\x00\x00\x00\x00\x00\x00\x00\x62",
        PloamFault::Crc,
    ),
    (&[0xff; 13], PloamFault::Crc),
    (&[0; 12], PloamFault::Length),
    (&[0; 14], PloamFault::Length),
];

/// The same upstream, under a mask.
const NOT_UP: [(&'static [u8], Mask, PloamFault); 4] = [
    (&[0; 13], Mask::Coset, PloamFault::Crc),
    (&[0xff; 13], Mask::Plain, PloamFault::Crc),
    (&[0; 12], Mask::Plain, PloamFault::Length),
    (&[0; 14], Mask::Plain, PloamFault::Length),
];

/// What octets of 0 say.
const NO_IDENTIFIER: Up = Up::Other {
    id: 0,
    octet1: 0,
    body: [0; 10],
};

fn is_not_down(octets: &[u8], fault: PloamFault) -> bool {
    decode_down(octets, Mask::Plain) == Err(fault)
}

fn is_not_up(octets: &[u8], mask: Mask, fault: PloamFault) -> bool {
    decode_up(octets, mask) == Err(fault)
}

fn is_up(octets: &[u8], message: &Up) -> bool {
    decode_up(octets, Mask::Plain) == Ok(*message)
}

/// A wrong check octet, octets of 0 under either mask, octets of 255, and one octet too few or too many.
#[test]
fn length_and_crc_faults(rt: HostRuntime) {
    for (octets, fault) in &NOT_DOWN {
        assert!(rt; is_not_down(octets, *fault), "{octets:?}");
    }
    for (octets, mask, fault) in &NOT_UP {
        assert!(rt; is_not_up(octets, *mask, *fault), "{octets:?}");
    }
    assert!(rt; is_up(&[0; 13], &NO_IDENTIFIER));
}

#[test]
fn printed_faults(rt: HostRuntime) {
    let length = "the code has not 13 octets";
    assert!(rt; prints(rt.alloc(), &PloamFault::Length, length));
    assert!(rt; prints(rt.alloc(), &PloamFault::Crc, "the check octet is wrong"));
}

/// Gives the same code under the other mask.
fn under_coset(plain: [u8; 13]) -> [u8; 13] {
    let mut coset = plain;
    coset[12] ^= 0x55;
    coset
}

/// Tells whether a message is proper, has this code under a mask, and is read from it.
fn is_coded(code: &[u8; 13], message: &Down, mask: Mask) -> bool {
    is_proper(message)
        && encode_down(message, mask) == *code
        && decode_down(code, mask) == Ok(*message)
}

/// Tells whether a proper message has this code under either mask, is read from it, and isn't read under the wrong
/// mask.
fn is_down_of(number: u128, message: &Down) -> bool {
    let plain = code(number);
    let coset = under_coset(plain);
    is_coded(&plain, message, Mask::Plain)
        && is_coded(&coset, message, Mask::Coset)
        && is_not_down(&coset, PloamFault::Crc)
}

/// Tells the same as `is_coded` of a unit's message.
fn is_coded_up(code: &[u8; 13], message: &Up, mask: Mask) -> bool {
    is_proper_up(message)
        && encode_up(message, mask) == *code
        && decode_up(code, mask) == Ok(*message)
}

/// Tells the same as `is_down_of` of a unit's message.
fn is_up_of(number: u128, message: &Up) -> bool {
    let plain = code(number);
    let coset = under_coset(plain);
    is_coded_up(&plain, message, Mask::Plain)
        && is_coded_up(&coset, message, Mask::Coset)
        && is_not_up(&coset, Mask::Plain, PloamFault::Crc)
}

/// Each row of the table of codes, with the limits of its fields.
const CODES_DOWN: [(u128, Down); 18] = [
    (
        0xff010000000000000000000058,
        Down::UpstreamOverhead { burst: [0; 10] },
    ),
    (
        0xff0109080706050403020100f6,
        Down::UpstreamOverhead { burst: BODY },
    ),
    (
        0xff03fd414243440000000100e6,
        Down::AssignOnu {
            onu: 253,
            serial: SERIAL,
        },
    ),
    (
        0x0004000003386000000000009c,
        Down::RangingTime {
            onu: 0,
            eqd: 211_040,
        },
    ),
    (
        0x010400fffffffe000000000037,
        Down::RangingTime {
            onu: 1,
            eqd: 0xffff_fffe,
        },
    ),
    (0x00050000000000000000000063, Down::Deactivate { onu: 0 }),
    (0xff050000000000000000000024, Down::Deactivate { onu: 255 }),
    (
        0xff06ff41424344000000010055,
        Down::DisableSerial { serial: SERIAL },
    ),
    (
        0xff060041424344000000010078,
        Down::EnableSerial { serial: SERIAL },
    ),
    (0xff060f00000000000000000053, Down::EnableAll),
    (
        0x000a1000010000000000000047,
        Down::AssignAlloc {
            onu: 0,
            alloc: 256,
            keep: true,
        },
    ),
    (
        0x070afff00100000000000000ca,
        Down::AssignAlloc {
            onu: 7,
            alloc: 4095,
            keep: true,
        },
    ),
    (
        0x070a1010ff000000000000009e,
        Down::AssignAlloc {
            onu: 7,
            alloc: 257,
            keep: false,
        },
    ),
    (0xff0b000000000000000000009e, Down::NoMessage),
    (0xff0c00000000000000000000c3, Down::Popup { onu: 255 }),
    (0x030c0000000000000000000063, Down::Popup { onu: 3 }),
    // An identifier that no row has, and one whose row is for every unit alone.
    (
        0x04c8090807060504030201005d,
        Down::Other {
            id: 200,
            octet1: 4,
            body: BODY,
        },
    ),
    (
        0x0406090807060504030201009f,
        Down::Other {
            id: 6,
            octet1: 4,
            body: BODY,
        },
    ),
];

const CODES_UP: [(u128, Up); 10] = [
    (
        0xff01414243440000000100002c,
        Up::SerialNumber {
            onu: 255,
            serial: SERIAL,
            random: 0,
            flags: 0,
        },
    ),
    (
        0x0001414243440000000100006b,
        Up::SerialNumber {
            onu: 0,
            serial: SERIAL,
            random: 0,
            flags: 0,
        },
    ),
    (
        0xff014142434400000001ffff08,
        Up::SerialNumber {
            onu: 255,
            serial: SERIAL,
            random: 4095,
            flags: 15,
        },
    ),
    (0x00030000000000000000000021, Up::DyingGasp { onu: 0 }),
    (0xfd0300000000000000000000dc, Up::DyingGasp { onu: 253 }),
    (0x0004000000000000000000007c, Up::NoMessage { onu: 0 }),
    (0x01040000000000000000000021, Up::NoMessage { onu: 1 }),
    (
        0x00090a0000000000000000007e,
        Up::Acknowledge {
            onu: 0,
            id: 10,
            copy: [0; 9],
        },
    ),
    (
        0x01090a090807060504030201c3,
        Up::Acknowledge {
            onu: 1,
            id: 10,
            copy: [9, 8, 7, 6, 5, 4, 3, 2, 1],
        },
    ),
    (
        0xff0009080706050403020100e9,
        Up::Other {
            id: 0,
            octet1: 255,
            body: BODY,
        },
    ),
];

#[test]
fn worked_codes_down(rt: HostRuntime) {
    for (number, message) in &CODES_DOWN {
        assert!(rt; is_down_of(*number, message), "{number:x}");
    }
}

#[test]
fn worked_codes_up(rt: HostRuntime) {
    for (number, message) in &CODES_UP {
        assert!(rt; is_up_of(*number, message), "{number:x}");
    }
}

#[test]
fn improper_messages(rt: HostRuntime) {
    let (onu, octet1, serial, body) = (0, 0, SERIAL, [1; 10]);
    let proper = [
        is_proper(&Down::AssignAlloc {
            onu,
            alloc: 4096,
            keep: true,
        }),
        is_proper(&Down::Other {
            id: 12,
            octet1,
            body,
        }),
        is_proper_up(&Up::SerialNumber {
            onu,
            serial,
            random: 4096,
            flags: 0,
        }),
        is_proper_up(&Up::SerialNumber {
            onu,
            serial,
            random: 0,
            flags: 16,
        }),
        is_proper_up(&Up::Other {
            id: 3,
            octet1,
            body,
        }),
    ];
    assert!(rt; proper == [false; 5]);
}
