//! Bytes gathered on the stack. A writer without a buffer of its own is then called once for some thousand bytes.

ghost use Rattle.std.specs.Prelude.{◌≡◌, [], false};
ghost use Rattle.byte_writer.specs.Taken.{Finishes, HasPut};

use crate::write::{WriteFault, write_bytes};
use arrayvec::ArrayVec;
use std::io::Write;
use std::marker::Model;

/// How many bytes are gathered before they are written.
const MOST_HELD: usize = 4096;

/// Bytes that are still to be written. After a failed write no more are accepted, so a caller that puts a text in parts checks only
/// once, at the end.
#[derive(Drop)]
pub struct PendingBytes {
    held: ArrayVec<u8, MOST_HELD>,
    failed: bool,
}

impl Model for PendingBytes {
    ghost use Rattle.byte_writer.specs.Taken.{Pending};

    ghost Value = { Pending };

    ghost view = { λ a. record { held = a.held.items; failed = a.failed } };
}

impl PendingBytes {
    /// No bytes yet.
    pub fn new() -> PendingBytes
        ensures { result ≡ record { held = []; failed = false } }
    {
        PendingBytes {
            held: ArrayVec::new(),
            failed: false,
        }
    }

    /// Puts the bytes after those that are held. If there is no room for them, all are written.
    pub fn put<W: Write>(&mut self, bytes: &[u8], writer: &mut W)
        ensures { HasPut (W.contents writer.old) (W.contents writer.new) self.old self.new
            bytes.now }
    {
        if self.failed {
            return;
        }
        if self.held.try_extend_from_slice(bytes).is_ok() {
            return;
        }
        if write_bytes(self.held.as_slice(), writer).is_err() {
            self.failed = true;
            return;
        }
        self.held.clear();
        if write_bytes(bytes, writer).is_err() {
            self.failed = true;
        }
    }

    /// Writes what is held, and says whether everything that was put has been written.
    pub fn finish<W: Write>(self, writer: &mut W) -> Result<(), WriteFault>
        ensures { Finishes result (W.contents writer.old) (W.contents writer.new) self }
    {
        if self.failed {
            return Err(WriteFault::Write);
        }
        write_bytes(self.held.as_slice(), writer)
    }
}
