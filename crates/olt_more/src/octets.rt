//! The first twelve octets of codes of every message.
use crate::choices::Choices;

/// Makes those of a message of the line terminal.
pub(crate) fn down_octets(choices: &mut Choices) -> [u8; 12] {
    let [a, b, c, d, e, f, g, h] = choices.number().to_le_bytes();
    match choices.below(14) {
        0 => [255, 1, a, b, c, d, e, f, g, h, a, b],
        1 | 2 => [255, 3, a, b'W', b'A', b'G', b'P', b, c, d, e, 0],
        3 | 4 => [a, 4, 0, 0, b & 7, c, d, 0, 0, 0, 0, 0],
        5 => [a, 5, 0, 0, 0, 0, 0, 0, 0, 0, 0, 0],
        6 => [255, 6, 255, b'W', b'A', b'G', b'P', b, c, d, e, 0],
        7 => [255, 6, 0, a, b, c, d, e, f, g, h, 0],
        8 => [255, 6, 15, 0, 0, 0, 0, 0, 0, 0, 0, 0],
        9 => [a, 10, b, c & 240, 1, 0, 0, 0, 0, 0, 0, 0],
        10 => [a, 10, b, c & 240, 255, 0, 0, 0, 0, 0, 0, 0],
        11 => [255, 11, 0, 0, 0, 0, 0, 0, 0, 0, 0, 0],
        12 => [a, 12, 0, 0, 0, 0, 0, 0, 0, 0, 0, 0],
        _ => [a, b, c, d, e, f, g, h, a, b, c, d],
    }
}

/// Makes those of a message of a unit.
pub(crate) fn up_octets(choices: &mut Choices) -> [u8; 12] {
    let [a, b, c, d, e, f, g, h] = choices.number().to_le_bytes();
    match choices.below(8) {
        0 | 1 => [a, 1, b'W', b'A', b'G', b'P', b, c, d, e, f, g],
        2 => [255, 1, a, b, c, d, e, f, g, h, 0, 0],
        3 => [a, 3, 0, 0, 0, 0, 0, 0, 0, 0, 0, 0],
        4 | 5 => [a, 4, 0, 0, 0, 0, 0, 0, 0, 0, 0, 0],
        6 => [a, 9, 10, a, 10, b, c & 240, 1, 0, 0, 0, 0],
        _ => [a, b, c, d, e, f, g, h, a, b, c, d],
    }
}
