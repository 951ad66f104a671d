//! The raw lines of a reader, one at a time, from a block of fixed size.

ghost use Rattle.std.specs.Prelude.{◌≡◌, ◌<◌, ◌++◌, ◌∷◌, [], length, IfOk, OnErr};
ghost use Rattle.std.specs.Io.KnownBytes.{Consumes};
ghost use Rattle.gtp_core.specs.Runs.{block_limit};
ghost use Rattle.gtp_core.specs.Private.Taking.{HasByte, IsByte, IsRawLine, Stops, StopsInLine, kept, bounded};

use crate::channel::ReadFrom;
use crate::run::MAX_INPUT;
use crate::session::MAX_LINE;
use arrayvec::ArrayVec;
use std::io::Read;
use std::marker::Model;

/// How many bytes a reader is asked for at once.
const BLOCK: usize = 4096;

/// How much of a raw line is kept: one byte more than a line may have, so a line that is too long can be recognized.
pub(crate) const MAX_KEPT: usize = MAX_LINE + 1;

/// A reader failed, or gave more bytes than an input may have.
#[derive(Clone, Copy, Debug)]
pub(crate) struct ReadFailed;

/// How the bytes of a line ended.
#[derive(Clone, Copy, Debug, PartialEq, Eq)]
pub(crate) enum Ending {
    LineFeed,
    End,
}

/// The bytes that a reader gave and that have not been taken yet: those of the block from `start` to `end`. No call asks for more
/// before all of them are taken.
#[derive(Drop)]
pub(crate) struct Input {
    block: [u8; BLOCK],
    start: usize,
    end: usize,
    /// How many more bytes the input may have.
    room: usize,
}

impl Model for Input {
    ghost use Rattle.std.specs.Prelude.{◌≡◌, ◌≤◌, length, take, drop};
    ghost use Rattle.gtp_core.specs.Private.Taking.{HeldInput};

    ghost Value = { HeldInput };

    ghost view = { λ a. record { held = drop a.start (take a.end a.block); room = a.room } };

    ghost invariant = { λ a. (a.start ≤ a.end) × (a.end ≤ 4096) × (length a.block ≡ 4096) };
}

/// Adds the byte to the part of a line that is kept, if there is room.
fn keep(line: &mut ArrayVec<u8, MAX_KEPT>, byte: u8)
    ensures { line.new.items ≡ kept (line.old.items ++ byte ∷ []) }
{
    if line.len() == MAX_KEPT {
        return;
    }
    line.push(byte);
}

impl Input {
    pub(crate) fn new() -> Input
        ensures held { result.held ≡ [] }
        ensures room { result.room ≡ 67108864 }
    {
        Input {
            block: [0; BLOCK],
            start: 0,
            end: 0,
            room: MAX_INPUT,
        }
    }

    /// The next byte, whether or not the input may have one more. `None` if the reader has ended.
    fn take_byte<A: ReadFrom<R>, R: Read>(
        &mut self,
        reader: &mut R,
    ) -> Result<Option<u8>, ReadFailed>
        ensures byte { IfOk result
            (λ o. HasByte (bounded self.old (R.remaining reader.old)).left
            (bounded self.new (R.remaining reader.new)).left o) }
        ensures room { self.new.room ≡ self.old.room }
        ensures few { length self.new.held < block_limit }
        ensures failed { OnErr result (A.read_failed reader.new) }
        ensures stopped { OnErr result ((self.new.held ≡ [])
            × Consumes (bounded self.old (R.remaining reader.old)).left
            (bounded self.new (R.remaining reader.new)).left []) }
    {
        if self.start == self.end {
            match A::read_block(reader, &mut self.block) {
                Ok(0) => return Ok(None),
                Ok(count) => {
                    self.start = 0;
                    self.end = count;
                }
                Err(_) => return Err(ReadFailed),
            }
        }
        let byte = self.block[self.start];
        self.start += 1;
        Ok(Some(byte))
    }

    /// The next byte. `None` if the reader has ended.
    fn next<A: ReadFrom<R>, R: Read>(&mut self, reader: &mut R) -> Result<Option<u8>, ReadFailed>
        ensures byte { IfOk result
            (λ o. IsByte (bounded self.old (R.remaining reader.old))
            (bounded self.new (R.remaining reader.new)) o) }
        ensures few { length self.new.held < block_limit }
        ensures failed { OnErr result
            (Stops (A.read_failed reader.new) self.new.held
            (bounded self.old (R.remaining reader.old)) (bounded self.new (R.remaining reader.new))
            []) }
    {
        match self.take_byte::<A, R>(reader) {
            Ok(Some(byte)) => {
                if self.room == 0 {
                    return Err(ReadFailed);
                }
                self.room -= 1;
                Ok(Some(byte))
            }
            Ok(None) => Ok(None),
            Err(failed) => Err(failed),
        }
    }

    /// The next raw line: the bytes up to a line feed, or to the end. Only the front of a line that is too long is kept.
    pub(crate) fn next_line<A: ReadFrom<R>, R: Read>(
        &mut self,
        reader: &mut R,
        line: &mut ArrayVec<u8, MAX_KEPT>,
    ) -> Result<Ending, ReadFailed>
        ensures line { IfOk result
            (λ e. IsRawLine (bounded self.old (R.remaining reader.old))
            (bounded self.new (R.remaining reader.new)) line.new.items e) }
        ensures few { length self.new.held < block_limit }
        ensures failed { OnErr result
            (StopsInLine (A.read_failed reader.new) self.new.held
            (bounded self.old (R.remaining reader.old))
            (bounded self.new (R.remaining reader.new))) }
    {
        line.clear();
        loop {
            match self.next::<A, R>(reader) {
                Ok(None) => return Ok(Ending::End),
                Ok(Some(b'\n')) => return Ok(Ending::LineFeed),
                Ok(Some(byte)) => keep(line, byte),
                Err(failed) => return Err(failed),
            }
        }
    }
}
