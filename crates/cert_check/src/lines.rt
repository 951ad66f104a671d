//! The checks that depend only on the kind of a line.

ghost use Rattle.std.specs.Prelude.{◌≡◌, ◌*◌, ◌↔◌, ℕ, nat_eq, length, Some, IfSome, IsTrue, option_map};
ghost use Rattle.go_points.specs.Ply.{ply_of};
ghost use Rattle.proof_cert.specs.Lines.{turn_fits, line_fits, use_line};
ghost use Rattle.proof_cert.specs.Stage.{line_value};
ghost use Rattle.cert_check.specs.Verdict.{is_after};
ghost use Rattle.cert_check.specs.Parts.{header_value, header_line_of, had_value, had_line_of, opening_value, opening_line, listed_value, listed_line, node_value, node_line, reply_value, reply_line_of, end_value, end_line_of};

use go_points::{Colour, Colouring, Size, Turn};
use proof_cert::{Line, Version};

/// The first line of a claim.
#[derive(Clone, Copy, Debug, PartialEq, Eq)]
pub(crate) struct Header {
    pub(crate) version: Version,
    pub(crate) size: u32,
    pub(crate) winner: Colour,
}

/// The line before a body.
#[derive(Clone, Copy, Debug)]
pub(crate) enum Opening {
    Lemma {
        mover: Colour,
        passes: u8,
        root: Colouring,
    },
    Main,
}

/// The line of a node.
#[derive(Clone, Copy, Debug, PartialEq, Eq)]
pub(crate) enum NodeLine {
    Won,
    Use(u32),
    Play(Turn),
    All(u32),
}

/// The line, if it is the first line of a claim.
pub(crate) fn header_of(line: &Line) -> Option<Header>
    ensures { (n : ℕ) → option_map header_value result ≡ header_line_of (line_value n line.now) }
{
    match *line {
        Line::Header {
            version,
            size,
            winner,
        } => Some(Header {
            version,
            size,
            winner,
        }),
        _ => None,
    }
}

/// The line, if it comes before a body.
pub(crate) fn opening_of(line: &Line) -> Option<Opening>
    ensures { (n : ℕ) → option_map opening_value result ≡ opening_line (line_value n line.now) }
{
    match *line {
        Line::Lemma {
            mover,
            passes,
            root,
        } => Some(Opening::Lemma {
            mover,
            passes,
            root,
        }),
        Line::Main => Some(Opening::Main),
        _ => None,
    }
}

/// The colouring of the line, if it is one that must have occurred.
pub(crate) fn had_of(line: &Line) -> Option<Colouring>
    ensures { (n : ℕ) → option_map had_value result ≡ had_line_of (line_value n line.now) }
{
    match *line {
        Line::Had(colouring) => Some(colouring),
        _ => None,
    }
}

/// The colouring of the line, if it is one that must not have occurred.
pub(crate) fn listed_of(line: &Line) -> Option<Colouring>
    ensures { (n : ℕ) → option_map listed_value result ≡ listed_line (line_value n line.now) }
{
    match *line {
        Line::Not(colouring) => Some(colouring),
        _ => None,
    }
}

/// The line, if it is that of a node.
pub(crate) fn node_of(line: &Line) -> Option<NodeLine>
    ensures { (n : ℕ) → option_map (node_value n) result ≡ node_line (line_value n line.now) }
{
    match *line {
        Line::Won => Some(NodeLine::Won),
        Line::Use(lemma) => Some(NodeLine::Use(lemma)),
        Line::Play(turn) => Some(NodeLine::Play(turn)),
        Line::All(replies) => Some(NodeLine::All(replies)),
        _ => None,
    }
}

/// Whether the node rests on the shape of the targets: lemmas are counted from 1.
pub(crate) fn rests_on_shape(node: &NodeLine) -> bool
    ensures { (n : ℕ) → IsTrue result ↔ (node_value n node.now ≡ use_line 0) }
{
    match *node {
        NodeLine::Use(lemma) => lemma == 0,
        _ => false,
    }
}

/// The turn of the line, if it is a reply.
pub(crate) fn reply_of(line: &Line) -> Option<Turn>
    ensures { (n : ℕ) → option_map (reply_value n) result ≡ reply_line_of (line_value n line.now) }
{
    match *line {
        Line::Reply(turn) => Some(turn),
        _ => None,
    }
}

/// Whether the line is `end`.
pub(crate) fn is_end(line: &Line) -> bool
    ensures { (n : ℕ) → end_value result ≡ end_line_of (line_value n line.now) }
{
    match *line {
        Line::End => true,
        _ => false,
    }
}

/// Whether a colouring is of a board of this size.
fn colouring_fits(size: Size, colouring: &Colouring) -> bool
    ensures { result ≡ nat_eq (length colouring.now) (size * size) }
{
    colouring.size().area() == size.area()
}

/// Whether a turn is possible on a board of this size.
fn turn_fits(size: Size, turn: Turn) -> bool
    ensures { result ≡ turn_fits size (ply_of size turn) }
{
    match turn {
        Turn::Pass => true,
        Turn::At(point) => size.holds(point),
    }
}

/// Whether the line is possible in a claim for boards of this size.
pub(crate) fn line_fits(size: Size, line: &Line) -> bool
    ensures { result ≡ line_fits size (line_value size line.now) }
{
    match *line {
        Line::Lemma { passes, root, .. } => passes <= 1 && colouring_fits(size, &root),
        Line::Had(colouring) => colouring_fits(size, &colouring),
        Line::Not(colouring) => colouring_fits(size, &colouring),
        Line::Play(turn) => turn_fits(size, turn),
        Line::Reply(turn) => turn_fits(size, turn),
        _ => true,
    }
}

/// Whether a colouring comes after the one before it in its list, if there is one.
pub(crate) fn is_after(last: Option<Colouring>, colouring: &Colouring) -> bool
    requires { IfSome last (λ c. length c ≡ length colouring.now) }
    ensures { result ≡ is_after last colouring.now }
{
    match last {
        Some(before) => before.cmp(colouring).is_lt(),
        None => true,
    }
}
