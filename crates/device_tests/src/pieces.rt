//! A reader that gives a few bytes at a time.

use std::io;
use std::io::{ErrorKind, Read};

/// Gives a text in pieces of a fixed number of bytes, and then fails or ends.
#[derive(Drop)]
pub(crate) struct Pieces<'a> {
    pub(crate) left: &'a [u8],
    pub(crate) piece: usize,
    pub(crate) fails: bool,
}

impl<'a> Read for Pieces<'a> {
    ghost remaining = { λ r. Some r.left.now };

    ghost use Rattle.std.specs.Prelude.{Some};

    fn read(&mut self, buf: &mut [u8]) -> io::Result<usize> {
        if self.left.is_empty() && self.fails {
            return Err(io::Error::from(ErrorKind::Other));
        }
        let count = self.left.len().min(buf.len()).min(self.piece.max(1));
        let (front, rest) = self.left.split_at(count);
        buf[..count].copy_from_slice(front);
        self.left = rest;
        Ok(count)
    }
}
