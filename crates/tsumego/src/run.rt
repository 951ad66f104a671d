//! A run of the program: from its words and its input to its answer.

ghost use Rattle.std.specs.Prelude.{◌≡◌, ℕ, List, map, Some, IfOk, IsFalse};
ghost use Rattle.tsumego_words.specs.CommandLine.{command_of, is_session, FitsRanges};
ghost use Rattle.tsumego_replies.specs.Asking.{MayAsk};
ghost use Rattle.counted_devices.specs.Devices.{HasFailed};
ghost use Rattle.tsumego.specs.Devices.{ReadFails};
ghost use Rattle.tsumego.specs.Outcome.{EndsOn, RanOn};
ghost use Rattle.proof_cert.specs.Streamed.{Tells};
ghost use Rattle.tsumego_replies.specs.Replies.{IsReply};

use crate::answer::{answer, write_text};
use crate::gtp::serve_gtp;
use counted_devices::Counting;
use run_parts::{InputEnd, MAX_FRONT, Status, read_to_limit};
use std::alloc::Global;
use std::convert::AsStr;
use std::io::{Read, Write};
use tsumego_replies::{Failure, NO_MEMORY, NO_READ, Response, reply_to};
use tsumego_words::{Command, NoCommand, read_command};

/// Runs the program on its words, the first of which is its name, with devices for which nothing has been counted yet.
///
/// For every list of bytes that the reader tells, the status and the text that the writer has taken are those of the command that
/// the words give; after a failed write what was taken is a part of such a text. No command except `check` and `gtp` asks for more
/// bytes than one more than a record may have; `check` only behind a record, and `gtp` for no more than a session may have, and a
/// block. Words that give no command, `--help` among them, ask for none. A session that `quit` ended has asked for less than a block
/// after that line.
///
/// A run that ends as failed tells why: memory was refused, and the text says so; a read failed and was counted, or a bound on what
/// is read was passed, and the text says so, in a session after the replies; or a write failed and was counted.
pub fn run<S: AsStr, R: Read, W: Write>(
    alloc: Global,
    words: &[S],
    reader: &mut Counting<R>,
    writer: &mut Counting<W>,
) -> Status
    requires reads { (reader.old.faults ≡ 0) × (reader.old.interrupts ≡ 0) }
    requires writes { (writer.old.faults ≡ 0) × (writer.old.interrupts ≡ 0) }
    ensures ran { RanOn (command_of (map S.text words.now)) (R.remaining reader.old.inner)
        (ReadFails (command_of (map S.text words.now)) reader.new.faults reader.new.interrupts)
        (HasFailed writer.new.faults writer.new.interrupts) result (W.contents writer.old.inner)
        (W.contents writer.new.inner) }
    ensures asked { MayAsk (command_of (map S.text words.now)) (R.remaining reader.old.inner)
        (R.remaining reader.new.inner) }
    ensures ended { EndsOn (command_of (map S.text words.now)) result
        (R.remaining reader.old.inner) (R.remaining reader.new.inner)
        (W.contents writer.old.inner) (W.contents writer.new.inner) }
{
    match read_command(alloc, words) {
        Ok(command) => obey(alloc, command, reader, writer),
        Err(NoCommand::Words(text)) => write_text(writer, text.as_bytes(), Status::BadWords),
        Err(NoCommand::Memory) => write_text(writer, NO_MEMORY, Status::Failed),
    }
}

/// Does what the command asks for.
fn obey<R: Read, W: Write>(
    alloc: Global,
    command: Command,
    reader: &mut Counting<R>,
    writer: &mut Counting<W>,
) -> Status
    requires { FitsRanges command }
    ensures ran { RanOn (Some command) (R.remaining reader.old.inner)
        (ReadFails (Some command) reader.new.faults reader.new.interrupts)
        (HasFailed writer.new.faults writer.new.interrupts) result (W.contents writer.old.inner)
        (W.contents writer.new.inner) }
    ensures asked { MayAsk (Some command) (R.remaining reader.old.inner)
        (R.remaining reader.new.inner) }
    ensures ended { EndsOn (Some command) result (R.remaining reader.old.inner)
        (R.remaining reader.new.inner) (W.contents writer.old.inner)
        (W.contents writer.new.inner) }
{
    if command.is_session() {
        return serve_gtp(alloc, reader, writer);
    }
    match answer_of(alloc, command, reader) {
        Ok(Response::Text(reply)) => write_text(writer, reply.text.as_bytes(), reply.status),
        Ok(
            Response::Solution {
                checked,
                proof,
                lift,
            },
        ) => answer(alloc, &checked, proof, lift, writer),
        Ok(Response::TooLong) => write_text(writer, NO_READ, Status::Failed),
        Err(Failure::Memory) => write_text(writer, NO_MEMORY, Status::Failed),
        Err(Failure::Read) => {
            // A source of lines also says so when it cannot count them any more, but no reader will ever give that many lines.
            if reader.has_failed() {
                return write_text(writer, NO_READ, Status::Failed);
            }
            write_text(writer, NO_MEMORY, Status::Failed)
        }
    }
}

/// What the command answers for the input, whose front is read first. If the input has ended, no more is read from it.
fn answer_of<R: Read>(alloc: Global, command: Command, reader: &mut R) -> Result<Response, Failure>
    requires fits { FitsRanges command }
    requires whole { IsFalse (is_session command) }
    ensures reply { IfOk result (λ r. (bytes : List ℕ) × Tells (R.remaining reader.old) bytes
        × IsReply command bytes r) }
    ensures asked { MayAsk (Some command) (R.remaining reader.old) (R.remaining reader.new) }
{
    let mut front = Vec::new(alloc);
    match read_to_limit(reader, &mut front, MAX_FRONT) {
        Ok(InputEnd::Whole) => {
            let mut nothing = b"".as_slice();
            reply_to(alloc, command, front.as_slice(), &mut nothing)
        }
        Ok(InputEnd::Full) => reply_to(alloc, command, front.as_slice(), reader),
        Ok(InputEnd::Failed) => Err(Failure::Read),
        Err(_) => Err(Failure::Memory),
    }
}
