//! The lines of a claim, one at a time.

ghost use Rattle.std.specs.Prelude.{◌≡◌, ◌<◌, ◌^◌, ◌∷◌, length, option_map};
ghost use Rattle.proof_cert.specs.Stage.{line_value};
ghost use Rattle.proof_cert.specs.Private.Source.{source_of, answer, answer_value, later};
ghost use Rattle.proof_cert.specs.Text.{lines};

use crate::line::{Line, place_of_byte};
use go_points::Size;
use std::marker::Model;
use thiserror::Error;

/// Why a source gives no line.
#[derive(Clone, Copy, Debug, PartialEq, Eq, Error)]
pub enum SourceFault {
    /// The bytes spell no line, or do not end with a line feed.
    #[error("malformed")]
    Malformed = 1,

    #[error("memory")]
    Memory = 2,

    #[error("read")]
    Read = 3,
}

/// The lines of a text held in memory, for a board of one size.
#[derive(Drop)]
pub(crate) struct TextSource<'a> {
    size: Size,
    left: &'a [u8],
    number: u64,
    has_failed: bool,
}

impl<'a> Model for TextSource<'a> {
    ghost use Rattle.std.specs.Prelude.{◌+◌, ◌^◌, ◌<◌, length};
    ghost use Rattle.proof_cert.specs.Private.Source.{Source};
    ghost use Rattle.proof_cert.specs.Text.{lines};

    ghost Value = { Source };

    ghost view = { λ a. record {
      size = a.size;
      left = lines a.size a.left.now;
      number = a.number;
      has_failed = a.has_failed;
    } };

    ghost invariant = { λ a. a.number + length a.left.now < 2 ^ 63 };
}

/// The first line of a text that is not empty, if its bytes spell one and a line feed ends it; and what follows it.
fn first_line<'a>(size: Size, text: &'a [u8]) -> (Option<Line>, &'a [u8])
    requires { 0 < length text.now }
    ensures lines { lines size text.now ≡ option_map (line_value size) result.0
        ∷ lines size result.1.now }
    ensures shorter { length result.1.now < length text.now }
{
    match place_of_byte(text, b'\n') {
        Some(end) => (Line::from_text(size, &text[..end]), &text[end + 1..]),
        None => (None, &text[text.len()..]),
    }
}

impl<'a> TextSource<'a> {
    /// The lines of the text, for a board of this size.
    pub(crate) fn new(size: Size, text: &'a [u8]) -> TextSource<'a>
        ensures { result ≡ source_of size text.now }
    {
        prove!(text.len() < 9_223_372_036_854_775_808);
        TextSource {
            size,
            left: text,
            number: 0,
            has_failed: false,
        }
    }

    /// The next line. `None` if the text has ended. After a fault, it is that fault again.
    pub(crate) fn next(&mut self) -> Result<Option<Line>, SourceFault>
        ensures answer { answer_value self.old.size result ≡ answer self.old }
        ensures later { self.new ≡ later self.old }
    {
        if self.has_failed {
            return Err(SourceFault::Malformed);
        }
        if self.left.is_empty() {
            return Ok(None);
        }
        let (line, left) = first_line(self.size, self.left);
        self.left = left;
        self.number += 1;
        if line.is_none() {
            self.has_failed = true;
            return Err(SourceFault::Malformed);
        }
        Ok(line)
    }
}
