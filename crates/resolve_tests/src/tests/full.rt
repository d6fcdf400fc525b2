//! A writer of std that is full after some bytes.

use std::io::Write;

/// Takes a byte a call while there is room, and then none, without a failure.
#[derive(Drop)]
pub struct Full {
    room: usize,
}

impl Full {
    pub fn after(room: usize) -> Full {
        Full { room }
    }
}

impl Write for Full {
    fn write(&mut self, buf: &[u8]) -> std::io::Result<usize> {
        if self.room == 0 || buf.is_empty() {
            return Ok(0);
        }
        self.room -= 1;
        Ok(1)
    }

    fn flush(&mut self) -> std::io::Result<()> {
        Ok(())
    }
}
