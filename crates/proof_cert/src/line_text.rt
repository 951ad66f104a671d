//! The bytes of lines, put after those that are pending.

ghost use Rattle.std.specs.Prelude.{◌≡◌, ◌++◌, [], ◌∷◌, IsTrue, decimal, Some};
ghost use Rattle.go_points.specs.Ply.{ply_of};
ghost use Rattle.go_points.specs.Text.{cell_code, text_of};
ghost use Rattle.byte_writer.specs.Taken.{HasPut};
ghost use Rattle.proof_cert.specs.Lines.{turn_fits, lemma_line, had_spelled, not_line, header_line};
ghost use Rattle.proof_cert.specs.Stage.{version_number};
ghost use Rattle.proof_cert.specs.Text.{colour_letter, vertex_text, line_feed};
ghost use Rattle.proof_cert.specs.Private.Taken.{line_text};

use crate::certificate::Lemma;
use crate::version::Version;
use arrayvec::ArrayVec;
use byte_writer::PendingBytes;
use go_points::{Cell, Colour, Colouring, MAX_POINTS, Size, Turn, to_sgf};
use std::io::Write;

/// Puts the digits of the number, the highest first.
fn put_decimal<W: Write>(number: usize, pending: &mut PendingBytes, writer: &mut W)
    ensures { HasPut (W.contents writer.old) (W.contents writer.new) pending.old pending.new
        (decimal number) }
{
    if number < 10 {
        pending.put(&[b'0' + number as u8], writer);
        return;
    }
    put_decimal(number / 10, pending, writer);
    pending.put(&[b'0' + (number % 10) as u8], writer);
}

fn put_letter<W: Write>(colour: Colour, pending: &mut PendingBytes, writer: &mut W)
    ensures { HasPut (W.contents writer.old) (W.contents writer.new) pending.old pending.new
        (colour_letter colour) }
{
    match colour {
        Colour::Black => pending.put(b"B", writer),
        Colour::White => pending.put(b"W", writer),
    }
}

fn put_vertex<W: Write>(size: Size, turn: Turn, pending: &mut PendingBytes, writer: &mut W)
    ensures { IsTrue (turn_fits size (ply_of size turn))
        → HasPut (W.contents writer.old) (W.contents writer.new) pending.old pending.new
        (vertex_text size (ply_of size turn)) }
{
    match turn {
        Turn::Pass => pending.put(b"pass", writer),
        Turn::At(point) => pending.put(&to_sgf(point), writer),
    }
}

fn byte_of(cell: Cell) -> u8
    ensures { result ≡ cell_code cell }
{
    match cell {
        Cell::Empty => b'.',
        Cell::Stone(Colour::Black) => b'X',
        Cell::Stone(Colour::White) => b'O',
    }
}

fn cells_of(colouring: &Colouring) -> ArrayVec<u8, MAX_POINTS>
    ensures { result.items ≡ text_of colouring.now }
{
    prove!(colouring.size().area() <= MAX_POINTS);
    let mut cells = ArrayVec::new();
    for number in 0..colouring.size().area() {
        cells.push(byte_of(colouring.cell(number)));
    }
    cells
}

fn put_cells<W: Write>(colouring: &Colouring, pending: &mut PendingBytes, writer: &mut W)
    ensures { HasPut (W.contents writer.old) (W.contents writer.new) pending.old pending.new
        (text_of colouring.now) }
{
    pending.put(cells_of(colouring).as_slice(), writer);
}

/// Puts a line that is a single word.
pub(crate) fn put_word<W: Write>(word: &[u8], pending: &mut PendingBytes, writer: &mut W)
    ensures { HasPut (W.contents writer.old) (W.contents writer.new) pending.old pending.new
        (word.now ++ line_feed ∷ []) }
{
    pending.put(word, writer);
    pending.put(b"\n", writer);
}

/// Puts a line of a word and a number.
pub(crate) fn put_number<W: Write>(
    word: &[u8],
    number: usize,
    pending: &mut PendingBytes,
    writer: &mut W,
)
    ensures { HasPut (W.contents writer.old) (W.contents writer.new) pending.old pending.new
        ((word.now ++ decimal number) ++ line_feed ∷ []) }
{
    pending.put(word, writer);
    put_decimal(number, pending, writer);
    pending.put(b"\n", writer);
}

/// Puts a line of a word and a turn, which has to be one of the board.
pub(crate) fn put_turn<W: Write>(
    word: &[u8],
    size: Size,
    turn: Turn,
    pending: &mut PendingBytes,
    writer: &mut W,
)
    ensures { IsTrue (turn_fits size (ply_of size turn))
        → HasPut (W.contents writer.old) (W.contents writer.new) pending.old pending.new
        ((word.now ++ vertex_text size (ply_of size turn)) ++ line_feed ∷ []) }
{
    pending.put(word, writer);
    put_vertex(size, turn, pending, writer);
    pending.put(b"\n", writer);
}

/// Puts a line of a word and a colouring.
fn put_coloured<W: Write>(
    word: &[u8],
    colouring: &Colouring,
    pending: &mut PendingBytes,
    writer: &mut W,
)
    ensures { HasPut (W.contents writer.old) (W.contents writer.new) pending.old pending.new
        ((word.now ++ text_of colouring.now) ++ line_feed ∷ []) }
{
    pending.put(word, writer);
    put_cells(colouring, pending, writer);
    pending.put(b"\n", writer);
}

/// Puts the line of a listed colouring.
pub(crate) fn put_not<W: Write>(
    size: Size,
    colouring: &Colouring,
    pending: &mut PendingBytes,
    writer: &mut W,
)
    ensures { HasPut (W.contents writer.old) (W.contents writer.new) pending.old pending.new
        (line_text size (Some (not_line colouring.now))) }
{
    put_coloured(b"not ", colouring, pending, writer);
}

/// Puts the line of a colouring that must have occurred; it has none in a claim of version 1.
pub(crate) fn put_had<W: Write>(
    version: Version,
    size: Size,
    colouring: &Colouring,
    pending: &mut PendingBytes,
    writer: &mut W,
)
    ensures { HasPut (W.contents writer.old) (W.contents writer.new) pending.old pending.new
        (line_text size (had_spelled (version_number version) colouring.now)) }
{
    match version {
        Version::One => {}
        Version::Two => put_coloured(b"had ", colouring, pending, writer),
    }
}

/// Puts the first line of a lemma.
pub(crate) fn put_lemma_line<W: Write>(
    size: Size,
    lemma: &Lemma,
    pending: &mut PendingBytes,
    writer: &mut W,
)
    ensures { HasPut (W.contents writer.old) (W.contents writer.new) pending.old pending.new
        (line_text size (Some (lemma_line lemma.now.mover lemma.now.passes lemma.now.root))) }
{
    pending.put(b"lemma ", writer);
    put_letter(lemma.mover, pending, writer);
    pending.put(b" ", writer);
    put_decimal(lemma.passes as usize, pending, writer);
    pending.put(b" ", writer);
    put_cells(&lemma.root, pending, writer);
    pending.put(b"\n", writer);
}

/// Puts the first line of a claim.
pub(crate) fn put_header<W: Write>(
    version: Version,
    size: Size,
    winner: Colour,
    pending: &mut PendingBytes,
    writer: &mut W,
)
    ensures { HasPut (W.contents writer.old) (W.contents writer.new) pending.old pending.new
        (line_text size (Some (header_line (version_number version) size winner))) }
{
    pending.put(b"tsucert ", writer);
    put_decimal(version.number(), pending, writer);
    pending.put(b" ", writer);
    put_decimal(size.rows() as usize, pending, writer);
    pending.put(b" ", writer);
    put_letter(winner, pending, writer);
    pending.put(b"\n", writer);
}

/// Puts the first line of a short claim.
pub(crate) fn put_short_header<W: Write>(
    size: Size,
    winner: Colour,
    pending: &mut PendingBytes,
    writer: &mut W,
) {
    pending.put(b"tsushort 1 ", writer);
    put_decimal(size.rows() as usize, pending, writer);
    pending.put(b" ", writer);
    put_letter(winner, pending, writer);
    pending.put(b"\n", writer);
}
