//! Points in SGF's letters.

ghost use Rattle.std.specs.Prelude.{◌≡◌};
ghost use Rattle.go_points.specs.Sgf.{sgf_place, sgf_text};

use crate::point::Point;
use crate::size::Size;

/// The point of a board of this size with these letters, as SGF FF[4] defines them ("Go (GM=1) specific properties"): two
/// lower-case letters, the column and then the row, with `aa` at the upper left. `None` for any other text, and for a point off the
/// board.
pub fn sgf_point(size: Size, text: &[u8]) -> Option<Point>
    ensures { result ≡ sgf_place size text.now }
{
    let [column, row] = text else {
        return None;
    };
    if *column < b'a' || *row < b'a' {
        return None;
    }
    size.point(*column - b'a', *row - b'a')
}

/// The two letters of the point, as SGF FF[4] defines them: the column and then the row, with `aa` at the upper left.
pub fn to_sgf(point: Point) -> [u8; 2]
    ensures { result ≡ sgf_text point }
{
    [b'a' + point.col(), b'a' + point.row()]
}
