//! A session that serves GTP commands.

ghost use Rattle.std.specs.Prelude.{Some};
ghost use Rattle.counted_devices.specs.Devices.{HasFailed};
ghost use Rattle.tsumego.specs.Devices.{ReadFails};
ghost use Rattle.tsumego.specs.Outcome.{EndsOn, RanOn};
ghost use Rattle.tsumego_replies.specs.Asking.{MayAsk};

use crate::answer::{write_all, write_text};
use counted_devices::Counting;
use gtp_core::{GtpEnd, ReadFrom, WriteTo, run_over};
use run_parts::Status;
use sgf_text::WriteFault;
use std::alloc::Global;
use std::io;
use std::io::{Read, Write};
use tsumego_replies::{NO_MEMORY, NO_READ};
use tsumego_words::Command;

/// Devices that count their failures.
struct Counted;

impl<R: Read> ReadFrom<Counting<R>> for Counted {
    ghost read_failed = { λ r. HasFailed r.faults r.interrupts };

    fn read_block(reader: &mut Counting<R>, block: &mut [u8]) -> io::Result<usize> {
        reader.ask(block)
    }
}

impl<W: Write> WriteTo<Counting<W>> for Counted {
    ghost write_failed = { λ w. HasFailed w.faults w.interrupts };

    fn send(bytes: &[u8], writer: &mut Counting<W>) -> Result<(), WriteFault> {
        write_all(bytes, writer)?;
        match writer.flush_device() {
            Ok(()) => Ok(()),
            Err(_) => Err(WriteFault::Write),
        }
    }
}

/// Serves GTP commands up to the end of the input, or to `quit`.
pub fn serve_gtp<R: Read, W: Write>(
    alloc: Global,
    reader: &mut Counting<R>,
    writer: &mut Counting<W>,
) -> Status
    ensures ran { RanOn (Some Command.Gtp) (R.remaining reader.old.inner)
        (ReadFails (Some Command.Gtp) reader.new.faults reader.new.interrupts)
        (HasFailed writer.new.faults writer.new.interrupts) result (W.contents writer.old.inner)
        (W.contents writer.new.inner) }
    ensures asked { MayAsk (Some Command.Gtp) (R.remaining reader.old.inner)
        (R.remaining reader.new.inner) }
    ensures ended { EndsOn (Some Command.Gtp) result (R.remaining reader.old.inner)
        (R.remaining reader.new.inner) (W.contents writer.old.inner)
        (W.contents writer.new.inner) }
{
    match run_over::<Counted, Counted, Counting<R>, Counting<W>>(alloc, reader, writer) {
        Ok(()) => Status::Answered,
        Err(GtpEnd::Read) => write_text(writer, NO_READ, Status::Failed),
        Err(GtpEnd::Write) => Status::Failed,
        Err(GtpEnd::Memory) => write_text(writer, NO_MEMORY, Status::Failed),
    }
}
