//! Devices that are interrupted. A helper program asks each again, a thousand times in all.

ghost use Rattle.std.specs.Prelude.{◌≡◌};

use crate::expect::expect_written;
use run_parts::Status;
use std::alloc::{AllocGlobal, Global};
use std::io;
use std::io::{ErrorKind, Read, Write};
use std::process::Abort;
use std::rt::Env;
use tool_parts::{exit_code, read_whole, write_text};

/// A reader or a writer whose next calls are interrupted.
#[derive(Drop)]
struct Interrupted<T> {
    inner: T,
    left: u32,
}

impl<T> Interrupted<T> {
    /// Whether the call that is made now is interrupted.
    fn is_due(&mut self) -> bool
        ensures inner { self.new.inner ≡ self.old.inner }
    {
        if self.left == 0 {
            return false;
        }
        self.left -= 1;
        true
    }
}

impl<R: Read> Read for Interrupted<R> {
    ghost remaining = { λ r. R.remaining r.inner };

    fn read(&mut self, buf: &mut [u8]) -> io::Result<usize> {
        if self.is_due() {
            return Err(io::Error::from(ErrorKind::Interrupted));
        }
        self.inner.read(buf)
    }
}

impl<W: Write> Write for Interrupted<W> {
    ghost contents = { λ w. W.contents w.inner };

    fn write(&mut self, buf: &[u8]) -> io::Result<usize> {
        if self.is_due() {
            return Err(io::Error::from(ErrorKind::Interrupted));
        }
        self.inner.write(buf)
    }

    fn flush(&mut self) -> io::Result<()> {
        self.inner.flush()
    }
}

/// Writes what it has read.
fn copied<R: Read, W: Write>(alloc: Global, reader: &mut R, writer: &mut W) -> Status {
    let mut bytes = Vec::new(alloc);
    match read_whole(reader, &mut bytes) {
        Ok(true) => write_text(writer, bytes.as_slice(), Status::Answered),
        _ => write_text(writer, b"failed: read\n", Status::Failed),
    }
}

/// Expects this exit code and this text of a program that copies a text, whose devices are interrupted so often.
fn ends<E: Env + AllocGlobal + Abort>(rt: &E, reads: u32, writes: u32, wanted: u8, text: &str) {
    let alloc = rt.alloc();
    let reader = Interrupted {
        inner: "abc".as_bytes(),
        left: reads,
    };
    let mut writer = Interrupted {
        inner: Vec::new(alloc),
        left: writes,
    };
    let code = exit_code(
        rt,
        reader,
        &mut writer,
        Vec::new(alloc),
        |_words, reader, writer, _notes| copied(alloc, reader, writer),
    );
    assert_eq!(rt; code, wanted);
    expect_written(rt, writer.inner, text);
}

#[test]
fn an_interrupted_device_is_asked_again_a_thousand_times(rt: HostRuntime) {
    ends(&rt, 0, 0, 0, "abc");
    ends(&rt, 1_000, 1_000, 0, "abc");
    ends(&rt, 1_001, 0, 4, "failed: read\n");
    ends(&rt, 0, 1_001, 4, "");
}
