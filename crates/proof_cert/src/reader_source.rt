//! The lines of a claim, one at a time, from some bytes and then from a reader.

ghost use Rattle.std.specs.Prelude.{◌≡◌, ◌+◌, ◌-◌, ◌<◌, ◌^◌, [], None, Some, Err, IfOk};
ghost use Rattle.proof_cert.specs.Private.Source.{answer_value};
ghost use Rattle.proof_cert.specs.Given.{lines_counted};
ghost use Rattle.proof_cert.specs.Streamed.{IsPiece, IsRead, reader_gives, streamed_of, short_streamed_of};

use crate::body_line::BodyLine;
use crate::line::Line;
use crate::node_source::NodeSource;
use crate::source::SourceFault;
use crate::spelling::Spelling;
use crate::told_bytes::{ReadFailed, ToldBytes};
use arrayvec::ArrayVec;
use go_points::{MAX_POINTS, MAX_SIZE, Size};
use std::io::Read;
use std::marker::Model;

/// The longest line, without its line feed, in bytes: `lemma B 0 ` and the cells of the widest board.
pub const MAX_LINE: usize = 10 + MAX_POINTS;

/// More lines than any source gives.
const TOO_MANY: u64 = 18_446_744_073_709_551_614;

/// How the bytes of a line ended.
#[derive(Clone, Copy, Debug, PartialEq, Eq)]
pub(crate) enum Ending {
    LineFeed,
    End,
    TooLong,
}

/// The lines of some bytes and then of what a reader gives, for a board of one size. It allocates no memory: it holds one block of
/// the bytes and one line.
#[derive(Drop)]
pub struct ReaderSource<'a, R: Read + Drop> {
    spelling: Spelling,
    size: Size,
    bytes: ToldBytes<'a, R>,
    number: u64,
    fault: Option<SourceFault>,
    is_alive: bool,
}

impl<'a, R: Read + Drop> Model for ReaderSource<'a, R> {
    ghost use Rattle.std.specs.Prelude.{◌≡◌, ◌-◌, ◌^◌, ◌<◌, None};
    ghost use Rattle.proof_cert.specs.Streamed.{Streamed};

    ghost Value = { Streamed };

    ghost view = { λ a. record {
      spelling = a.spelling;
      size = a.size;
      left = a.bytes;
      number = a.number;
      fault = a.fault;
    } };

    ghost invariant = { λ a. a.fault ≡ None → a.number < 2 ^ 64 - 1 };
}

/// The bytes up to a line feed, to the end, or to one more than a line may have.
fn read_piece<R: Read + Drop>(
    bytes: &mut ToldBytes<'_, R>,
    line: &mut ArrayVec<u8, MAX_LINE>,
) -> Result<Ending, ReadFailed>
    requires { line.old.items ≡ [] }
    ensures { IfOk result (λ e. IsPiece bytes.old bytes.new line.new.items e) }
{
    for _ in 0..MAX_LINE {
        let Some(byte) = bytes.next()? else {
            return Ok(Ending::End);
        };
        if byte == b'\n' {
            return Ok(Ending::LineFeed);
        }
        line.push(byte);
    }
    match bytes.next()? {
        None => Ok(Ending::End),
        Some(byte) => {
            if byte == b'\n' {
                return Ok(Ending::LineFeed);
            }
            Ok(Ending::TooLong)
        }
    }
}

/// The next line of the bytes, byte by byte.
fn cut_line<R: Read + Drop>(
    spelling: Spelling,
    size: Size,
    bytes: &mut ToldBytes<'_, R>,
) -> Result<Option<Line>, SourceFault>
    ensures { IsRead spelling size bytes.old bytes.new (answer_value size result) }
{
    prove!(size.rows() <= MAX_SIZE);
    let mut line = ArrayVec::new();
    match read_piece(bytes, &mut line) {
        Ok(Ending::LineFeed) => match Line::read(spelling, size, line.as_slice()) {
            Some(line) => Ok(Some(line)),
            None => Err(SourceFault::Malformed),
        },
        Ok(Ending::End) => {
            if line.is_empty() {
                Ok(None)
            } else {
                Err(SourceFault::Malformed)
            }
        }
        Ok(Ending::TooLong) => Err(SourceFault::Malformed),
        Err(_) => Err(SourceFault::Read),
    }
}

/// The next line of the bytes, for a board of this size: at once if the block has the whole of it.
fn read_line<R: Read + Drop>(
    spelling: Spelling,
    size: Size,
    bytes: &mut ToldBytes<'_, R>,
) -> Result<Option<Line>, SourceFault>
    ensures { IsRead spelling size bytes.old bytes.new (answer_value size result) }
{
    match bytes.whole_line(spelling, size) {
        Some(Some(line)) => Ok(Some(line)),
        Some(None) => Err(SourceFault::Malformed),
        None => cut_line(spelling, size, bytes),
    }
}

impl<'a, R: Read + Drop> ReaderSource<'a, R> {
    /// The lines of the front and of what the reader gives after it, for a board of this size.
    pub fn new(size: Size, front: &'a [u8], reader: R) -> ReaderSource<'a, R>
        ensures { result ≡ streamed_of size front.now (R.remaining reader) }
    {
        ReaderSource {
            spelling: Spelling::Ordinary,
            size,
            bytes: ToldBytes::new(front, reader),
            number: 0,
            fault: None,
            is_alive: false,
        }
    }

    /// The lines of a short claim in the front and in what the reader gives after it, for a board of this size.
    pub fn of_short(size: Size, front: &'a [u8], reader: R) -> ReaderSource<'a, R>
        ensures { result ≡ short_streamed_of size front.now (R.remaining reader) }
    {
        ReaderSource {
            spelling: Spelling::Short,
            size,
            bytes: ToldBytes::new(front, reader),
            number: 0,
            fault: None,
            is_alive: false,
        }
    }

    /// Gives the fault now and at every later call.
    fn fail(&mut self, fault: SourceFault) -> Result<Option<Line>, SourceFault>
        requires { self.old.number < 2 ^ 64 - 1 }
        ensures answer { result ≡ Err fault }
        ensures source { self.new
            ≡ record self.old { number = self.old.number + 1; fault = Some fault } }
    {
        self.number += 1;
        self.is_alive = false;
        self.fault = Some(fault);
        Err(fault)
    }

    /// The next line, whichever it is.
    #[inline(never)]
    fn any_line(&mut self) -> Result<Option<Line>, SourceFault>
        requires fresh { self.old.fault ≡ None }
        requires few { self.old.number < 2 ^ 64 - 2 }
        ensures gives { reader_gives self.old (answer_value self.old.size result) self.new }
        ensures number { self.new.number ≡ self.old.number + lines_counted result }
    {
        match read_line(self.spelling, self.size, &mut self.bytes) {
            Ok(Some(line)) => {
                self.number += 1;
                self.is_alive = matches!(line, Line::Use(0));
                Ok(Some(line))
            }
            Ok(None) => {
                self.is_alive = false;
                Ok(None)
            }
            Err(fault) => self.fail(fault),
        }
    }

    /// Whether the line that was given last was `alive`, the use of lemma 0. It is for texts: nothing is promised of it.
    pub fn is_alive(&self) -> bool {
        self.is_alive
    }
}

impl<'a, R: Read + Drop> NodeSource for ReaderSource<'a, R> {
    ghost use Rattle.proof_cert.specs.Streamed.{reader_gives};

    ghost size = { λ s. s.size };

    ghost number = { λ s. s.number };

    ghost fault = { λ s. s.fault };

    ghost gives = { reader_gives };

    #[inline(never)]
    fn next(&mut self) -> Result<Option<Line>, SourceFault> {
        if let Some(fault) = self.fault {
            return Err(fault);
        }
        if self.number >= TOO_MANY {
            return self.fail(SourceFault::Read);
        }
        let Some(line) = self.bytes.body_line(self.spelling, self.size) else {
            return self.any_line();
        };
        self.number += 1;
        self.is_alive = matches!(line, BodyLine::Use(0));
        // Each arm returns by itself: what the arms of a `match` give is copied once more.
        match line {
            BodyLine::Won => return Ok(Some(Line::Won)),
            BodyLine::Use(lemma) => return Ok(Some(Line::Use(lemma))),
            BodyLine::Play(turn) => return Ok(Some(Line::Play(turn))),
            BodyLine::All(replies) => return Ok(Some(Line::All(replies))),
            BodyLine::Reply(turn) => return Ok(Some(Line::Reply(turn))),
            BodyLine::End => return Ok(Some(Line::End)),
        }
    }

    fn size(&self) -> Size {
        self.size
    }

    fn line_number(&self) -> u64 {
        self.number
    }
}
