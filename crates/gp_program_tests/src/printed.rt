//! What several of the tests use.
use std::alloc::Global;
use std::fmt::Display;

/// Tells whether a value is printed, as this text.
pub(crate) fn is_printed<T: Display>(alloc: Global, value: &T, text: &str) -> bool {
    match value.to_string(alloc) {
        Ok(printed) => printed.as_str() == text,
        Err(_) => false,
    }
}
