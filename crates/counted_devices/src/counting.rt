//! Readers and writers whose failures are counted.
//!
//! A run ends as failed only because of what is counted here, so a caller can tell from the count whether a device was at fault.

ghost use Rattle.std.specs.Prelude.{◌≡◌, ◌<◌, ◌≤◌, ◌+◌, min, true, false, length, IfOk, OnErr};
ghost use Rattle.std.specs.Io.{ReadsAtMost, WritesAtMost};
ghost use Rattle.std.specs.Io.KnownBytes.{Keeps, ReadConsumes, WriteAppends};
ghost use Rattle.counted_devices.specs.Devices.{Counts, HasFailed, interrupt_limit, most_faults};

use std::io;
use std::io::{ErrorKind, Read, Write};

/// How often a device may be interrupted in all. It is asked again after each of this many interruptions, and then no more.
pub const MAX_INTERRUPTS: u32 = 1_000;

/// A reader or a writer, with counts of how often it has failed and how often it was interrupted.
#[derive(Debug, Drop)]
pub struct Counting<T> {
    pub inner: T,
    pub faults: u64,
    pub interrupts: u32,
}

impl<T> Counting<T> {
    /// The device, with nothing counted yet.
    pub fn new(inner: T) -> Counting<T>
        ensures inner { result.inner ≡ inner }
        ensures faults { result.faults ≡ 0 }
        ensures interrupts { result.interrupts ≡ 0 }
    {
        Counting {
            inner,
            faults: 0,
            interrupts: 0,
        }
    }

    /// How many calls failed, not counting interrupted ones: those that returned an error, and writes that took none of their
    /// bytes. The greatest number also stands for more.
    pub fn faults(&self) -> u64
        ensures { result ≡ self.now.faults }
    {
        self.faults
    }

    /// How many calls were interrupted, up to one more than `MAX_INTERRUPTS`.
    pub fn interrupts(&self) -> u32
        ensures { result ≡ self.now.interrupts }
    {
        self.interrupts
    }

    /// Whether a call failed, or too many were interrupted.
    pub fn has_failed(&self) -> bool
        ensures some { result ≡ true → HasFailed self.now.faults self.now.interrupts }
        ensures none { result ≡ false
            → (self.now.faults ≡ 0) × (self.now.interrupts ≤ interrupt_limit) }
    {
        self.faults > 0 || self.interrupts > MAX_INTERRUPTS
    }
}

/// Counts one more, up to the greatest number.
fn one_more(count: u64) -> u64
    ensures { result ≡ min (count + 1) most_faults }
{
    count.saturating_add(1)
}

impl<R: Read> Counting<R> {
    /// Reads from the device, which is asked again if it was interrupted.
    pub fn ask(&mut self, buf: &mut [u8]) -> io::Result<usize>
        ensures bound { ReadsAtMost result buf.new }
        ensures bytes { ReadConsumes (R.remaining self.old.inner) (R.remaining self.new.inner)
            result buf.new }
        ensures failed { OnErr result (HasFailed self.new.faults self.new.interrupts) }
        ensures counted { self.old.interrupts ≤ interrupt_limit + 1
            → Counts result self.old.faults self.new.faults self.new.interrupts }
    {
        while self.interrupts <= MAX_INTERRUPTS {
            match self.inner.read(&mut *buf) {
                Ok(count) => return Ok(count),
                Err(error) => {
                    if error.kind() != ErrorKind::Interrupted {
                        self.faults = one_more(self.faults);
                        return Err(error);
                    }
                }
            }
            self.interrupts += 1;
        }
        Err(io::Error::from(ErrorKind::Interrupted))
    }
}

impl<W: Write> Counting<W> {
    /// Writes to the device, which is asked again if it was interrupted.
    pub fn put(&mut self, buf: &[u8]) -> io::Result<usize>
        ensures bound { WritesAtMost result buf.now }
        ensures bytes { WriteAppends (W.contents self.old.inner) (W.contents self.new.inner) result
            buf.now }
        ensures some { IfOk result (λ n. 0 < length buf.now → 0 < n) }
        ensures failed { OnErr result (HasFailed self.new.faults self.new.interrupts) }
        ensures counted { self.old.interrupts ≤ interrupt_limit + 1
            → Counts result self.old.faults self.new.faults self.new.interrupts }
    {
        while self.interrupts <= MAX_INTERRUPTS {
            match self.inner.write(buf) {
                Ok(count) => {
                    if count > 0 || buf.is_empty() {
                        return Ok(count);
                    }
                    self.faults = one_more(self.faults);
                    return Err(io::Error::from(ErrorKind::WriteZero));
                }
                Err(error) => {
                    if error.kind() != ErrorKind::Interrupted {
                        self.faults = one_more(self.faults);
                        return Err(error);
                    }
                }
            }
            self.interrupts += 1;
        }
        Err(io::Error::from(ErrorKind::Interrupted))
    }

    /// Flushes the device, which is asked again if it was interrupted.
    pub fn flush_device(&mut self) -> io::Result<()>
        ensures kept { Keeps (W.contents self.old.inner) (W.contents self.new.inner) }
        ensures failed { OnErr result (HasFailed self.new.faults self.new.interrupts) }
        ensures counted { self.old.interrupts ≤ interrupt_limit + 1
            → Counts result self.old.faults self.new.faults self.new.interrupts }
    {
        while self.interrupts <= MAX_INTERRUPTS {
            match self.inner.flush() {
                Ok(()) => return Ok(()),
                Err(error) => {
                    if error.kind() != ErrorKind::Interrupted {
                        self.faults = one_more(self.faults);
                        return Err(error);
                    }
                }
            }
            self.interrupts += 1;
        }
        Err(io::Error::from(ErrorKind::Interrupted))
    }
}

impl<R: Read> Read for Counting<R> {
    ghost remaining = { λ r. R.remaining r.inner };

    fn read(&mut self, buf: &mut [u8]) -> io::Result<usize> {
        self.ask(buf)
    }
}

impl<W: Write> Write for Counting<W> {
    ghost contents = { λ w. W.contents w.inner };

    fn write(&mut self, buf: &[u8]) -> io::Result<usize> {
        self.put(buf)
    }

    fn flush(&mut self) -> io::Result<()> {
        self.flush_device()
    }
}
