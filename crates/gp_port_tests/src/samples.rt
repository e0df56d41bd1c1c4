//! What the tests of several crates use.
use gp_ploam::Serial;
use std::alloc::Global;
use std::fmt::Display;

/// Vendor code ABCD, and the vendor's unit 1.
pub(crate) const SERIAL: Serial = Serial(*b"ABCD\0\0\0\x01");

/// Tells whether a value is printed, as this text.
pub(crate) fn prints<T: Display>(alloc: Global, value: &T, text: &str) -> bool {
    match value.to_string(alloc) {
        Ok(printed) => printed.as_str() == text,
        Err(_) => false,
    }
}
