//! What single words stand for.

ghost use Rattle.std.specs.Prelude.{◌≡◌, ◌++◌, IfSome, IfOk, IsTrue};
ghost use Rattle.go_points.specs.Place.{IsOn};
ghost use Rattle.go_points.specs.Ply.{ply_of};
ghost use Rattle.gtp_core.specs.Words.{colour_named, place_at, turn_at, is_on_board, turn_text};

use go_points::{Colour, Point, Size, Turn, Vertex, to_gtp};
use std::alloc::{AllocError, Global};

/// The colour that the word names, in any letter case.
pub(crate) fn colour_named(word: &[u8]) -> Option<Colour>
    ensures { result ≡ colour_named word.now }
{
    if word.eq_ignore_ascii_case(b"b") || word.eq_ignore_ascii_case(b"black") {
        Some(Colour::Black)
    } else if word.eq_ignore_ascii_case(b"w") || word.eq_ignore_ascii_case(b"white") {
        Some(Colour::White)
    } else {
        None
    }
}

/// The point in this column and row, the row counted from the bottom, if the board has it.
pub(crate) fn point_at(size: Size, column: u8, row: u8) -> Option<Point>
    ensures value { result ≡ place_at size column row }
    ensures on_board { IfSome result (IsOn size) }
{
    if row >= size.rows() {
        return None;
    }
    size.point(column, size.rows() - 1 - row)
}

/// The turn at the vertex, if the board has it.
pub(crate) fn turn_at(size: Size, vertex: Vertex) -> Option<Turn>
    ensures { result ≡ turn_at size vertex }
{
    match vertex {
        Vertex::Pass => Some(Turn::Pass),
        Vertex::At { column, row } => match point_at(size, column, row) {
            Some(point) => Some(Turn::At(point)),
            None => None,
        },
    }
}

/// A text followed by a turn of the board, as a vertex.
pub(crate) fn with_turn(
    alloc: Global,
    front: &[u8],
    size: Size,
    turn: &Turn,
) -> Result<Vec<u8>, AllocError>
    requires { IsTrue (is_on_board size turn.now) }
    ensures { IfOk result
        (λ text. text.items ≡ front.now ++ turn_text size (ply_of size turn.now)) }
{
    let mut text = Vec::new(alloc);
    text.extend_from_slice(front)?;
    match turn {
        Turn::Pass => text.extend_from_slice(b"pass")?,
        Turn::At(point) => text.extend_from_slice(to_gtp(size, *point).as_slice())?,
    }
    Ok(text)
}
