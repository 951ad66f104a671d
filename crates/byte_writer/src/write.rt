//! Writing all the bytes of a slice.

ghost use Rattle.std.specs.Prelude.{OnOk, OnErr};
ghost use Rattle.std.specs.Io.KnownBytes.{Appends};
ghost use Rattle.byte_writer.specs.Taken.{TakesPart};

use std::io::Write;
use thiserror::Error;

/// A failed write.
#[derive(Clone, Copy, Debug, PartialEq, Eq, Error)]
pub enum WriteFault {
    /// The writer failed, or took nothing.
    #[error("write")]
    Write = 1,
}

/// Writes all the bytes, a piece at a time. After a failure the writer has taken a front of them and nothing else.
pub fn write_bytes<W: Write>(bytes: &[u8], writer: &mut W) -> Result<(), WriteFault>
    ensures written { OnOk result
        (Appends (W.contents writer.old) (W.contents writer.new) bytes.now) }
    ensures cut { OnErr result
        (TakesPart (W.contents writer.old) (W.contents writer.new) bytes.now) }
{
    let mut done: usize = 0;
    while done < bytes.len() {
        match writer.write(&bytes[done..]) {
            Ok(0) => return Err(WriteFault::Write),
            Ok(n) => done += n,
            Err(_) => return Err(WriteFault::Write),
        }
    }
    Ok(())
}
