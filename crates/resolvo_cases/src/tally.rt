//! What was run, and which answers differ.

use std::alloc::Global;

/// How many cases there were, how many answers differ, and these as lines.
pub struct Tally {
    pub cases: u32,
    pub differing: u32,
    pub text: String,
}

impl Drop for Tally {
    fn drop(self) {
        let Tally {
            cases: _,
            differing: _,
            text: _,
        } = self;
    }
}

impl Tally {
    pub fn new(alloc: Global) -> Tally {
        Tally {
            cases: 0,
            differing: 0,
            text: String::new(alloc),
        }
    }

    pub fn differ(&mut self) {
        self.differing = self.differing.saturating_add(1);
    }
}
