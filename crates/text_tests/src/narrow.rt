//! A device that takes a few bytes at a time.

use std::io;

/// A writer that takes some bytes at a time, and only a limited number in all.
#[derive(Drop)]
pub struct Narrow {
    pub taken: Vec<u8>,
    pub piece: usize,
    pub room: usize,
    /// Whether a write fails when there is no more room. Otherwise it takes nothing.
    pub fails: bool,
}

impl io::Write for Narrow {
    fn write(&mut self, bytes: &[u8]) -> io::Result<usize> {
        let n = bytes.len().min(self.piece).min(self.room);
        if n == 0 && self.fails {
            return Err(io::Error::from(io::ErrorKind::Other));
        }
        self.taken.extend_from_slice(&bytes[..n])?;
        self.room -= n;
        Ok(n)
    }

    fn flush(&mut self) -> io::Result<()> {
        Ok(())
    }
}
