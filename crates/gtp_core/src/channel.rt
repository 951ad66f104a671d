//! How a run reads from its reader and writes to its writer.
//!
//! After a failed call, nothing is known about a device that any program may hand in. A device that counts its failures can say
//! more, and so can a run over it.

ghost use Rattle.std.specs.Prelude.{OnOk, OnErr};
ghost use Rattle.std.specs.Io.{ReadsAtMost};
ghost use Rattle.std.specs.Io.KnownBytes.{Appends, ReadConsumes};
ghost use Rattle.byte_writer.specs.Taken.{TakesPart};

use sgf_text::{WriteFault, write_bytes};
use std::io;
use std::io::{Read, Write};

/// How a reader is asked.
pub trait ReadFrom<R: Read> {
    /// What is known of a reader after a read that failed.
    ghost read_failed: { R → Type 0 };

    /// Reads into the block.
    fn read_block(reader: &mut R, block: &mut [u8]) -> io::Result<usize>
        ensures bound { ReadsAtMost result block.new }
        ensures bytes { ReadConsumes (R.remaining reader.old) (R.remaining reader.new) result
            block.new }
        ensures failed { OnErr result (read_failed reader.new) };
}

/// How bytes are given to a writer.
pub trait WriteTo<W: Write> {
    /// What is known of a writer after a write that failed.
    ghost write_failed: { W → Type 0 };

    /// Writes all the bytes, and flushes the writer. After a failure the writer has taken a front of them.
    fn send(bytes: &[u8], writer: &mut W) -> Result<(), WriteFault>
        ensures written { OnOk result
            (Appends (W.contents writer.old) (W.contents writer.new) bytes.now) }
        ensures cut { OnErr result
            (TakesPart (W.contents writer.old) (W.contents writer.new) bytes.now) }
        ensures failed { OnErr result (write_failed writer.new) };
}

/// Devices of which nothing is known after a failure.
pub struct Plain;

impl<R: Read> ReadFrom<R> for Plain {
    ghost read_failed = { λ r. Unit {0} };

    fn read_block(reader: &mut R, block: &mut [u8]) -> io::Result<usize> {
        reader.read(block)
    }
}

impl<W: Write> WriteTo<W> for Plain {
    ghost write_failed = { λ w. Unit {0} };

    fn send(bytes: &[u8], writer: &mut W) -> Result<(), WriteFault> {
        write_bytes(bytes, writer)?;
        match writer.flush() {
            Ok(()) => Ok(()),
            Err(_) => Err(WriteFault::Write),
        }
    }
}
