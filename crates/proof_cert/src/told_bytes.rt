//! The bytes that are held and then those of a reader, one byte or one line at a time, from a block of fixed size.

ghost use Rattle.std.specs.Prelude.{◌≡◌, ◌≤◌, ◌++◌, length, take, None, IfOk, IfSome, option_map, Ok, Some};
ghost use Rattle.proof_cert.specs.Stage.{line_value};
ghost use Rattle.proof_cert.specs.Private.Body.{body_value};
ghost use Rattle.proof_cert.specs.Given.{line_answer};
ghost use Rattle.proof_cert.specs.Streamed.{HasEnded, IsByte, IsRead, Uses};

use crate::body_line::{BodyLine, read_spelled};
use crate::line::{Line, place_of_byte};
use crate::spelling::Spelling;
use go_points::Size;
use std::io::Read;
use std::marker::Model;

/// How many bytes a reader is asked for at once.
const BLOCK: usize = 4096;

/// A reader failed.
#[derive(Clone, Copy, Debug)]
pub(crate) struct ReadFailed;

/// Bytes that are held, and after them a reader.
#[derive(Drop)]
struct Rest<'a, R: Read + Drop> {
    front: &'a [u8],
    reader: R,
}

impl<'a, R: Read + Drop> Rest<'a, R> {
    /// Reads the next bytes into the front of the block. Returns how many there are, which is 0 at the end.
    fn read(&mut self, block: &mut [u8; BLOCK]) -> Result<usize, ReadFailed>
        ensures length { length block.new ≡ 4096 }
        ensures few { IfOk result (λ n. n ≤ 4096) }
        ensures used { IfOk result
            (λ n. Uses (record { held = self.old.front.now; told = R.remaining self.old.reader })
            (record { held = self.new.front.now; told = R.remaining self.new.reader })
            (take n block.new)) }
        ensures end { IfOk result (λ n. n ≡ 0
            → HasEnded (record {
              held = self.new.front.now;
              told = R.remaining self.new.reader;
            })) }
    {
        if self.front.is_empty() {
            return match self.reader.read(block) {
                Ok(count) => Ok(count),
                Err(_) => Err(ReadFailed),
            };
        }
        let count = self.front.len().min(BLOCK);
        let (taken, front) = self.front.split_at(count);
        block[..count].copy_from_slice(taken);
        self.front = front;
        Ok(count)
    }
}

/// Bytes that have not been used yet: those of the block from `start` to `end`, and the rest after them.
#[derive(Drop)]
pub(crate) struct ToldBytes<'a, R: Read + Drop> {
    rest: Rest<'a, R>,
    block: [u8; BLOCK],
    start: usize,
    end: usize,
}

impl<'a, R: Read + Drop> Model for ToldBytes<'a, R> {
    ghost use Rattle.std.specs.Prelude.{◌≡◌, ◌≤◌, ◌++◌, length, take, drop};
    ghost use Rattle.proof_cert.specs.Streamed.{Unread};

    ghost Value = { Unread };

    ghost view = { λ a. record {
      held = drop a.start (take a.end a.block) ++ a.rest.front.now;
      told = R.remaining a.rest.reader;
    } };

    ghost invariant = { λ a. (a.start ≤ a.end) × (a.end ≤ 4096) × (length a.block ≡ 4096) };
}

impl<'a, R: Read + Drop> ToldBytes<'a, R> {
    pub(crate) fn new(front: &'a [u8], reader: R) -> ToldBytes<'a, R>
        ensures { result ≡ record { held = front.now; told = R.remaining reader } }
    {
        ToldBytes {
            rest: Rest { front, reader },
            block: [0; BLOCK],
            start: 0,
            end: 0,
        }
    }

    /// The next byte. `None` at the end.
    pub(crate) fn next(&mut self) -> Result<Option<u8>, ReadFailed>
        ensures { IfOk result (λ o. IsByte self.old self.new o) }
    {
        if self.start == self.end {
            match self.rest.read(&mut self.block) {
                Ok(0) => return Ok(None),
                Ok(count) => {
                    self.start = 1;
                    self.end = count;
                    return Ok(Some(self.block[0]));
                }
                Err(_) => return Err(ReadFailed),
            }
        }
        let byte = self.block[self.start];
        self.start += 1;
        Ok(Some(byte))
    }

    /// The next line, if the block has it with its line feed and it is one of a body. If so, its bytes are used.
    #[inline(always)]
    pub(crate) fn body_line(&mut self, spelling: Spelling, size: Size) -> Option<BodyLine>
        ensures some { IfSome result
            (λ l. IsRead spelling size self.old self.new (Ok (Some (body_value size l)))) }
        ensures none { result ≡ None → self.new ≡ self.old }
    {
        // A colouring is long, so its line is told by its first letter before its end is looked for.
        if matches!(
            self.block[self.start..self.end].first(),
            Some(b'n' | b'h' | b'l')
        ) {
            return None;
        }
        let length = place_of_byte(&self.block[self.start..self.end], b'\n')?;
        let feed = self.start + length;
        let line = read_spelled(spelling, size, &self.block[self.start..feed])?;
        self.start = feed + 1;
        Some(line)
    }

    /// The next line, if the block has it with its line feed. If its bytes spell a line, they are used.
    pub(crate) fn whole_line(&mut self, spelling: Spelling, size: Size) -> Option<Option<Line>>
        ensures some { IfSome result
            (λ l. IsRead spelling size self.old self.new
            (line_answer (option_map (line_value size) l))) }
        ensures none { result ≡ None → self.new ≡ self.old }
    {
        let length = place_of_byte(&self.block[self.start..self.end], b'\n')?;
        let feed = self.start + length;
        match Line::read(spelling, size, &self.block[self.start..feed]) {
            Some(line) => {
                self.start = feed + 1;
                Some(Some(line))
            }
            None => Some(None),
        }
    }
}
