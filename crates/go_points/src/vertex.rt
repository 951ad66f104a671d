//! Vertices as GTP 2 writes them.

ghost use Rattle.std.specs.Prelude.{◌≡◌, ◌≤◌};
ghost use Rattle.go_points.specs.Place.{IsOn};
ghost use Rattle.go_points.specs.Gtp.{column_named, column_letter, row_numbered, row_named, vertex_named, gtp_text};

use crate::point::Point;
use crate::size::Size;
use arrayvec::ArrayVec;

/// A vertex of GTP: a pass, or a column from the left and a row from the bottom, both from 0, which may be off the board.
#[derive(Clone, Copy, Debug, PartialEq, Eq)]
pub enum Vertex {
    Pass,
    At { column: u8, row: u8 },
}

/// The vertex that the text names, as GTP 2 defines it ("Board coordinates"), in any letter case: a letter from `A` to `Z` without
/// `I` and a row from 1 to 25 in one or two digits, or `pass`. `None` for any other text.
pub fn gtp_vertex(text: &[u8]) -> Option<Vertex>
    ensures { result ≡ vertex_named text.now }
{
    let (letter, digits) = text.split_first()?;
    if text.eq_ignore_ascii_case(b"pass") {
        return Some(Vertex::Pass);
    }
    let column = column_of(letter.to_ascii_lowercase())?;
    let row = row_of(digits)?;
    Some(Vertex::At { column, row })
}

/// The column, from 0, that a lower-case letter names.
fn column_of(letter: u8) -> Option<u8>
    ensures { result ≡ column_named letter }
{
    if b'a' <= letter && letter <= b'h' {
        Some(letter - b'a')
    } else if b'j' <= letter && letter <= b'z' {
        Some(letter - b'b')
    } else {
        None
    }
}

/// The row, from 0, that one or two digits name.
fn row_of(digits: &[u8]) -> Option<u8>
    ensures { result ≡ row_named digits.now }
{
    match digits {
        [ones] if ones.is_ascii_digit() => row_with(*ones - b'0'),
        [tens, ones] if tens.is_ascii_digit() && ones.is_ascii_digit() => {
            row_with(10 * (*tens - b'0') + (*ones - b'0'))
        }
        _ => None,
    }
}

/// The row with this number, if there is one.
fn row_with(number: u8) -> Option<u8>
    ensures { result ≡ row_numbered number }
{
    if 1 <= number && number <= 25 {
        Some(number - 1)
    } else {
        None
    }
}

/// The letter of a column.
fn letter_of(column: u8) -> u8
    requires { column ≤ 24 }
    ensures { result ≡ column_letter column }
{
    if column < 8 {
        b'A' + column
    } else {
        b'B' + column
    }
}

/// The text of the point, as GTP 2 defines it ("Board coordinates"): a letter for its column, from `A` on but without `I`, and the
/// number of its row from the bottom. It reads back as the vertex of the point.
pub fn to_gtp(size: Size, point: Point) -> ArrayVec<u8, 3>
    requires { IsOn size point }
    ensures { result.items ≡ gtp_text size point }
{
    let number = size.rows() - point.row();
    let mut text = ArrayVec::new();
    text.push(letter_of(point.col()));
    if number < 10 {
        text.push(b'0' + number);
    } else {
        text.push(b'0' + number / 10);
        text.push(b'0' + number % 10);
    }
    text
}
