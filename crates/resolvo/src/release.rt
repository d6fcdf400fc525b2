//! When a call releases what it made. A program that is about to end may release nothing.

use std::mem::{drop, forget};

/// When a call releases the values that it made.
#[derive(Clone, Copy, Debug, PartialEq, Eq)]
pub enum Release {
    /// Before it returns, as a library does.
    Now,
    /// When the process ends: the system takes its memory back.
    AtExit,
}

impl Release {
    /// Releases a value, or leaves it to the end of the process.
    pub fn done_with<T: Drop>(self, value: T) {
        match self {
            Release::Now => drop(value),
            Release::AtExit => forget(value),
        }
    }
}
