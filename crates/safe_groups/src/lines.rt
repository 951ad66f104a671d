//! The lines of a claim, one after another, from bytes and from a reader that has what comes after them.

use crate::fault::{Fault, Stop};
use go_points::{Size, sgf_point};
use std::alloc::Global;
use std::io::{ErrorKind, Read};

/// The greatest number of bytes of a line: the widest board, and a word before it.
const MAX_LINE: usize = 700;

/// How much is read at once.
const CHUNK: usize = 16_384;

/// How many times in a row a read may be interrupted.
const MAX_INTERRUPTS: usize = 1_000;

/// Where the lines come from, and the line that is next.
#[derive(Drop)]
pub struct ClaimLines<'a, R> {
    front: &'a [u8],
    reader: &'a mut R,
    chunk: Vec<u8>,
    at: usize,
    end: usize,
    line: Vec<u8>,
    number: u64,
}

impl<'a, R: Read> ClaimLines<'a, R> {
    /// The lines of these bytes and of what the reader has after them.
    pub fn new(
        alloc: Global,
        front: &'a [u8],
        reader: &'a mut R,
    ) -> Result<ClaimLines<'a, R>, Stop> {
        let mut chunk = Vec::new(alloc);
        for _ in 0..CHUNK {
            if chunk.push(0).is_err() {
                return Err(Stop::Memory);
            }
        }
        Ok(ClaimLines {
            front,
            reader,
            chunk,
            at: 0,
            end: 0,
            line: Vec::new(alloc),
            number: 0,
        })
    }

    /// The number of the line that was read last; the first is 1.
    pub fn number(&self) -> u64 {
        self.number
    }

    /// Reads more of what the reader has. Returns whether there was more.
    fn fill(&mut self) -> Result<bool, Stop> {
        for _ in 0..MAX_INTERRUPTS {
            match self.reader.read(self.chunk.as_mut_slice()) {
                Ok(0) => return Ok(false),
                Ok(count) => {
                    self.at = 0;
                    self.end = count;
                    return Ok(true);
                }
                Err(error) => {
                    if error.kind() != ErrorKind::Interrupted {
                        return Err(Stop::Read);
                    }
                }
            }
        }
        Err(Stop::Read)
    }

    /// The next byte, or none at the end.
    fn next_byte(&mut self) -> Result<Option<u8>, Stop> {
        if let Some((first, rest)) = self.front.split_first() {
            let byte = *first;
            self.front = rest;
            return Ok(Some(byte));
        }
        if self.at >= self.end && !self.fill()? {
            return Ok(None);
        }
        let byte = self.chunk.get(self.at).copied();
        self.at = self.at.saturating_add(1);
        Ok(byte)
    }

    /// Reads the next line, which has to be there, and ended.
    pub fn next_line(&mut self) -> Result<(), Stop> {
        self.number = self.number.saturating_add(1);
        self.line.clear();
        for _ in 0..MAX_LINE {
            match self.next_byte()? {
                Some(b'\n') => return Ok(()),
                Some(byte) => {
                    if self.line.push(byte).is_err() {
                        return Err(Stop::Memory);
                    }
                }
                None => return Err(Stop::Fault(Fault::Malformed)),
            }
        }
        Err(Stop::Fault(Fault::Malformed))
    }

    /// That nothing comes after the last line.
    pub fn end_here(&mut self) -> Result<(), Stop> {
        self.number = self.number.saturating_add(1);
        match self.next_byte()? {
            Some(_) => Err(Stop::Fault(Fault::TextAfterEnd)),
            None => Ok(()),
        }
    }

    /// The word of the line at this place, which is empty if a space stands where it should begin; none where the line has fewer.
    pub fn word(&self, place: usize) -> Option<&[u8]> {
        let mut rest = self.line.as_slice();
        for _ in 0..place {
            let space = rest.iter().position(|byte| *byte == b' ')?;
            rest = rest.get(space.saturating_add(1)..).unwrap_or(b"");
        }
        let end = rest
            .iter()
            .position(|byte| *byte == b' ')
            .unwrap_or(rest.len());
        rest.get(..end)
    }

    /// Whether the line has this first word, and so many words.
    pub fn is(&self, first: &[u8], count: usize) -> bool {
        self.word(0) == Some(first)
            && self.word(count.saturating_sub(1)).is_some()
            && self.word(count).is_none()
    }

    /// The number that the word at this place spells: one to eight digits, with no zero in front.
    pub fn number_at(&self, place: usize) -> Result<usize, Stop> {
        match self.word(place).and_then(number_of) {
            Some(number) => Ok(number),
            None => Err(Stop::Fault(Fault::Malformed)),
        }
    }

    /// The number of the point that the word at this place names; none for `pass`.
    pub fn turn_at(&self, size: Size, place: usize) -> Result<Option<usize>, Stop> {
        let Some(word) = self.word(place) else {
            return Err(Stop::Fault(Fault::Malformed));
        };
        if word == b"pass".as_slice() {
            return Ok(None);
        }
        match sgf_point(size, word) {
            Some(point) => Ok(Some(point.number(size))),
            None => Err(Stop::Fault(Fault::Malformed)),
        }
    }
}

/// The number that the digits spell.
fn number_of(word: &[u8]) -> Option<usize> {
    if word.is_empty() || word.len() > 8 || (word.len() > 1 && word[0] == b'0') {
        return None;
    }
    let mut number: usize = 0;
    for byte in word {
        if !byte.is_ascii_digit() {
            return None;
        }
        let digit = usize::from(byte.wrapping_sub(b'0'));
        number = number.saturating_mul(10).saturating_add(digit);
    }
    Some(number)
}
