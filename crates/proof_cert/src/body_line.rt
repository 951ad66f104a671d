//! The lines of a body. They have no colouring, and nearly all lines of a claim are such, so they are read and told apart as values
//! of a few bytes. The calls that read them are inlined, since a result goes through memory at a call.

ghost use Rattle.std.specs.Prelude.{◌≡◌, ℕ, Some, IfSome, option_map};
ghost use Rattle.proof_cert.specs.Private.Body.{body_value, body_line_of};
ghost use Rattle.proof_cert.specs.Stage.{line_value};
ghost use Rattle.proof_cert.specs.Text.{line_by};

use crate::line::{Line, behind_word, is_word, read_number, read_vertex};
use crate::spelling::Spelling;
use go_points::{Size, Turn};

/// A line of a body: that of a node or of a reply, or the one that ends the body.
#[derive(Clone, Copy, Debug, PartialEq, Eq)]
pub(crate) enum BodyLine {
    Won,
    Use(u32),
    Play(Turn),
    All(u32),
    Reply(Turn),
    End,
}

impl BodyLine {
    /// The same line, as one of a claim.
    #[inline(always)]
    pub(crate) fn line(self) -> Line
        ensures { (n : ℕ) → line_value n result ≡ body_value n self }
    {
        match self {
            BodyLine::Won => Line::Won,
            BodyLine::Use(lemma) => Line::Use(lemma),
            BodyLine::Play(turn) => Line::Play(turn),
            BodyLine::All(replies) => Line::All(replies),
            BodyLine::Reply(turn) => Line::Reply(turn),
            BodyLine::End => Line::End,
        }
    }
}

/// The line of a body that these bytes spell for a board of this size. `None` if they spell none.
#[inline(always)]
pub(crate) fn read_body_line(size: Size, text: &[u8]) -> Option<BodyLine>
    ensures { option_map (body_value size) result ≡ body_line_of size text.now }
{
    if let Some(rest) = behind_word(b"reply ", text) {
        return Some(BodyLine::Reply(read_vertex(size, rest)?));
    }
    if let Some(rest) = behind_word(b"play ", text) {
        return Some(BodyLine::Play(read_vertex(size, rest)?));
    }
    if let Some(rest) = behind_word(b"all ", text) {
        return Some(BodyLine::All(read_number(rest)?));
    }
    if is_word(b"won", text) {
        return Some(BodyLine::Won);
    }
    if let Some(rest) = behind_word(b"use ", text) {
        return Some(BodyLine::Use(read_number(rest)?));
    }
    if is_word(b"end", text) {
        return Some(BodyLine::End);
    }
    None
}

/// A line of a body that these bytes spell in a claim of this kind. `None` says nothing.
#[inline(always)]
#[tactic(auto, using(crate::proofs::Bodies::body_by, crate::proofs::Bodies::alive_by))]
pub(crate) fn read_spelled(spelling: Spelling, size: Size, text: &[u8]) -> Option<BodyLine>
    ensures { IfSome result (λ l. line_by spelling size text.now ≡ Some (body_value size l)) }
{
    if let Some(line) = read_body_line(size, text) {
        return Some(line);
    }
    if spelling == Spelling::Short && is_word(b"alive", text) {
        return Some(BodyLine::Use(0));
    }
    None
}
