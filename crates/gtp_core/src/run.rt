//! A run of a session over a reader and a writer.

ghost use Rattle.std.specs.Prelude.{◌≡◌, [], OnOk, IfErr, IfOk, OnErr};
ghost use Rattle.gtp_core.specs.Runs.{AsksWithin, HasRun, HasStopped, HasStoppedOn, first_session};
ghost use Rattle.gtp_core.specs.Private.Taking.{IsServed, IsPartServed};

use crate::channel::{Plain, ReadFrom, WriteTo};
use crate::end::GtpEnd;
use crate::fed::Fed;
use crate::input::{Ending, Input, MAX_KEPT};
use crate::session::Session;
use arrayvec::ArrayVec;
use sgf_text::WriteFault;
use std::alloc::Global;
use std::io::{Read, Write};

/// The greatest length of the input, in bytes: 64 MiB.
pub const MAX_INPUT: usize = 67_108_864;

/// What is written if memory was refused.
const NO_MEMORY: &[u8] = b"? out of memory\n\n";

/// Serves the lines of the reader up to its end, or to `quit`.
///
/// Each reply is written, and the writer flushed, before the next byte is asked for. A line for which memory is refused gets a
/// reply that says so, and the session goes on as it was. It holds one session, one line and one block of the input.
///
/// After `quit` nothing more is asked for, and after a failed read all lines that had ended by then have their replies. No more is
/// ever asked for than `MAX_INPUT` bytes and a block.
pub fn run_gtp<R: Read, W: Write>(
    alloc: Global,
    reader: &mut R,
    writer: &mut W,
) -> Result<(), GtpEnd>
    ensures ok { OnOk result
        (HasRun (R.remaining reader.old) (R.remaining reader.new) (W.contents writer.old)
        (W.contents writer.new)) }
    ensures err { IfErr result
        (λ e. HasStopped e (R.remaining reader.old) (R.remaining reader.new)
        (W.contents writer.old) (W.contents writer.new)) }
    ensures asked { AsksWithin (R.remaining reader.old) (R.remaining reader.new) }
{
    run_over::<Plain, Plain, R, W>(alloc, reader, writer)
}

/// Like `run_gtp`, for a reader and a writer about which more is known after a failed call. If the run ends because of a read, a
/// read failed in that way or the input is longer than `MAX_INPUT`; if it ends because of a write, a write failed in that way.
pub fn run_over<A: ReadFrom<R>, B: WriteTo<W>, R: Read, W: Write>(
    alloc: Global,
    reader: &mut R,
    writer: &mut W,
) -> Result<(), GtpEnd>
    ensures ok { OnOk result
        (HasRun (R.remaining reader.old) (R.remaining reader.new) (W.contents writer.old)
        (W.contents writer.new)) }
    ensures err { IfErr result
        (λ e. HasStoppedOn (A.read_failed reader.new) (B.write_failed writer.new) e
        (R.remaining reader.old) (R.remaining reader.new) (W.contents writer.old)
        (W.contents writer.new)) }
    ensures asked { AsksWithin (R.remaining reader.old) (R.remaining reader.new) }
{
    match Session::new(alloc) {
        Ok(session) => serve_lines::<A, B, R, W>(session, Input::new(), reader, writer),
        Err(_) => Err(GtpEnd::Memory),
    }
}

/// Serves the lines of the input, up to its end or that of the session.
fn serve_lines<A: ReadFrom<R>, B: WriteTo<W>, R: Read, W: Write>(
    mut session: Session,
    mut input: Input,
    reader: &mut R,
    writer: &mut W,
) -> Result<(), GtpEnd>
    requires session { session ≡ first_session }
    requires held { input.held ≡ [] }
    requires room { input.room ≡ 67108864 }
    ensures ok { OnOk result
        (HasRun (R.remaining reader.old) (R.remaining reader.new) (W.contents writer.old)
        (W.contents writer.new)) }
    ensures err { IfErr result
        (λ e. HasStoppedOn (A.read_failed reader.new) (B.write_failed writer.new) e
        (R.remaining reader.old) (R.remaining reader.new) (W.contents writer.old)
        (W.contents writer.new)) }
    ensures asked { AsksWithin (R.remaining reader.old) (R.remaining reader.new) }
{
    let mut line = ArrayVec::new();
    loop {
        let ending = match input.next_line::<A, R>(reader, &mut line) {
            Ok(ending) => ending,
            Err(_) => return Err(GtpEnd::Read),
        };
        let goes_on = match serve::<B, W>(&mut session, line.as_slice(), writer) {
            Ok(goes_on) => goes_on,
            Err(_) => return Err(GtpEnd::Write),
        };
        if !goes_on {
            return Ok(());
        }
        match ending {
            Ending::LineFeed => {}
            Ending::End => return Ok(()),
        }
    }
}

/// Serves a raw line, and writes what it gets. Returns whether the session goes on.
fn serve<B: WriteTo<W>, W: Write>(
    session: &mut Session,
    line: &[u8],
    writer: &mut W,
) -> Result<bool, WriteFault>
    ensures ok { IfOk result
        (λ goes_on. IsServed session.old line.now goes_on (W.contents writer.old)
        (W.contents writer.new) session.new) }
    ensures cut { OnErr result
        (IsPartServed session.old line.now (W.contents writer.old) (W.contents writer.new)) }
    ensures failed { OnErr result (B.write_failed writer.new) }
{
    match session.feed(line) {
        Ok(Fed::Nothing) => Ok(true),
        Ok(Fed::Reply(bytes)) => match B::send(bytes.as_slice(), writer) {
            Ok(()) => Ok(true),
            Err(fault) => Err(fault),
        },
        Ok(Fed::Quit(bytes)) => match B::send(bytes.as_slice(), writer) {
            Ok(()) => Ok(false),
            Err(fault) => Err(fault),
        },
        Err(_) => match B::send(NO_MEMORY, writer) {
            Ok(()) => Ok(true),
            Err(fault) => Err(fault),
        },
    }
}
