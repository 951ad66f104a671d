//! Readers and writers of tests: a text in pieces, a text and then one byte for ever, calls that fail, and what was flushed.

ghost use Rattle.std.specs.Prelude.{◌≡◌};

use std::io;
use std::io::{ErrorKind, Read, Write};

/// A text of which a read gives at most a fixed number of bytes.
#[derive(Debug, Drop)]
pub struct Pieces<'a> {
    pub left: &'a [u8],
    pub piece: usize,
}

impl<'a> Read for Pieces<'a> {
    ghost use Rattle.std.specs.Prelude.{Some};

    ghost remaining = { λ r. Some r.left.now };

    fn read(&mut self, buf: &mut [u8]) -> io::Result<usize> {
        let count = self.left.len().min(buf.len()).min(self.piece.max(1));
        let (front, rest) = self.left.split_at(count);
        buf[..count].copy_from_slice(front);
        self.left = rest;
        Ok(count)
    }
}

/// A text, and then one byte for ever.
#[derive(Debug, Drop)]
pub struct Endless<'a> {
    pub left: &'a [u8],
    pub byte: u8,
}

impl<'a> Read for Endless<'a> {
    ghost use Rattle.std.specs.Prelude.{None};

    ghost remaining = { λ r. None };

    fn read(&mut self, buf: &mut [u8]) -> io::Result<usize> {
        if self.left.is_empty() {
            buf.fill(self.byte);
            return Ok(buf.len());
        }
        let count = self.left.len().min(buf.len());
        let (front, rest) = self.left.split_at(count);
        buf[..count].copy_from_slice(front);
        self.left = rest;
        Ok(count)
    }
}

/// A reader or a writer some of whose calls fail, each with one kind of error. The calls are counted from 0.
#[derive(Debug, Drop)]
pub struct Faulty<'a, T> {
    pub inner: T,
    pub calls: u64,
    pub failing: &'a [u64],
    pub kind: ErrorKind,
}

impl<'a, T> Faulty<'a, T> {
    /// Counts a call, and says whether it fails.
    fn fails(&mut self) -> bool
        ensures inner { self.new.inner ≡ self.old.inner }
    {
        let call = self.calls;
        self.calls = call.saturating_add(1);
        self.failing.contains(&call)
    }
}

impl<'a, R: Read> Read for Faulty<'a, R> {
    ghost remaining = { λ r. R.remaining r.inner };

    fn read(&mut self, buf: &mut [u8]) -> io::Result<usize> {
        if self.fails() {
            return Err(io::Error::from(self.kind));
        }
        self.inner.read(buf)
    }
}

impl<'a, W: Write> Write for Faulty<'a, W> {
    ghost contents = { λ w. W.contents w.inner };

    fn write(&mut self, buf: &[u8]) -> io::Result<usize> {
        if self.fails() {
            return Err(io::Error::from(self.kind));
        }
        self.inner.write(buf)
    }

    fn flush(&mut self) -> io::Result<()> {
        self.inner.flush()
    }
}

/// A writer that counts how many of its bytes were flushed.
#[derive(Debug, Drop)]
pub struct Flushable {
    pub written: usize,
    pub flushed: usize,
}

impl Write for Flushable {
    ghost use Rattle.std.specs.Prelude.{None};

    ghost contents = { λ w. None };

    fn write(&mut self, buf: &[u8]) -> io::Result<usize> {
        self.written = self.written.saturating_add(buf.len());
        Ok(buf.len())
    }

    fn flush(&mut self) -> io::Result<()> {
        self.flushed = self.written;
        Ok(())
    }
}
