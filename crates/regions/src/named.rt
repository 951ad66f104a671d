//! Points by their names.

ghost use Rattle.std.specs.Prelude.{◌≡◌, Some};
ghost use Rattle.std.specs.Str.{str_to_ascii_lowercase};
ghost use Rattle.go_points.specs.Gtp.{vertex_named};
ghost use Rattle.go_points.specs.Sgf.{sgf_place};
ghost use Rattle.go_points.specs.declared.vertex.Vertex.TheVariants.{At as AtVertex};
ghost use Rattle.regions.specs.Named.{place_at, place_named};

use go_points::{Point, PointSet, Size, Vertex, gtp_vertex, sgf_point};

/// The point that the text names: two letters as in SGF (`dc`), or a letter and a number as on diagrams (`D17`), in any case.
pub fn named_point(size: Size, text: &[u8]) -> Option<Point>
    ensures { result ≡ place_named size text.now }
{
    match by_letters(size, text) {
        Some(point) => Some(point),
        None => by_coordinates(size, text),
    }
}

/// The point with these two letters.
fn by_letters(size: Size, text: &[u8]) -> Option<Point>
    ensures { result ≡ sgf_place size (str_to_ascii_lowercase text.now) }
{
    let [column, row] = text else {
        return None;
    };
    let letters = [column.to_ascii_lowercase(), row.to_ascii_lowercase()];
    sgf_point(size, &letters)
}

/// The point with this letter and this number.
fn by_coordinates(size: Size, text: &[u8]) -> Option<Point>
    ensures { result ≡ place_at size (vertex_named text.now) }
{
    match gtp_vertex(text) {
        Some(Vertex::At { column, row }) => point_from_below(size, column, row),
        Some(Vertex::Pass) => None,
        None => None,
    }
}

/// The point in this column and in this row from the bottom, if the board has it.
fn point_from_below(size: Size, column: u8, row: u8) -> Option<Point>
    ensures { result ≡ place_at size (Some (AtVertex column row)) }
{
    if row < size.rows() {
        size.point(column, size.rows() - 1 - row)
    } else {
        None
    }
}

/// The points that a text names, separated by commas. `None` if one of its parts names none. An empty text has no points.
pub fn named_set(size: Size, text: &[u8]) -> Option<PointSet> {
    let mut set = PointSet::new();
    if text.is_empty() {
        return Some(set);
    }
    let mut from: usize = 0;
    for at in 0..text.len() {
        if text[at] == b',' {
            set.insert(named_point(size, part(text, from, at))?);
            from = at + 1;
        }
    }
    set.insert(named_point(size, part(text, from, text.len()))?);
    Some(set)
}

/// The part of the text from one place to another; empty if there is no such part.
fn part<'a>(text: &'a [u8], from: usize, end: usize) -> &'a [u8] {
    text.get(from..end).unwrap_or(b"")
}
