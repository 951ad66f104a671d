//! The points that the values of a property stand for.

ghost use Rattle.std.specs.Prelude.{◌≡◌, ◌&&◌, ◌++◌, ◌∷◌, length, nat_le, filter, map, option_map, Some, IfSome};
ghost use Rattle.std.specs.List.{All};
ghost use Rattle.go_points.specs.Grid.{points};
ghost use Rattle.go_points.specs.Place.{IsOn, number_of};
ghost use Rattle.tsumego_problem.specs.Values.{trim, inside, rectangle, points_named, points_of};
ghost use Rattle.tsumego_problem.specs.Private.Named.{Gains, Adds};
ghost use Rattle.tsumego_problem.specs.Walk.{points_at};

use crate::main_line::values_at;
use crate::values::trim;
use go_points::{Point, PointSet, Size, sgf_point};
use sgf_text::{Bytes, SgfNode};

/// Whether the point is neither left of nor above the first, and neither right of nor below the last.
fn is_inside(first: Point, last: Point, point: Point) -> bool
    ensures { result ≡ (nat_le first.column point.column && nat_le point.column last.column &&
        nat_le first.row point.row && nat_le point.row last.row) }
{
    first.col() <= point.col()
        && point.col() <= last.col()
        && first.row() <= point.row()
        && point.row() <= last.row()
}

/// Adds the points of a rectangle to the set.
fn add_inside(size: Size, first: Point, last: Point, set: &mut PointSet)
    requires first { IsOn size first }
    requires last { IsOn size last }
    ensures { Gains size
        (filter (inside size (number_of size first) (number_of size last)) (points size)) set.old
        set.new }
{
    for number in 0..size.area() {
        let point = size.point_at(number);
        if is_inside(first, last, point) {
            set.insert(point);
        }
    }
}

/// Adds the point with these letters to the set. Returns whether the board has it.
fn add_point(size: Size, letters: &[u8], set: &mut PointSet) -> bool
    requires { length letters.now ≡ 2 }
    ensures { Adds size (points_named size letters.now) result set.old set.new }
{
    prove!(size.area() > 0);
    match sgf_point(size, letters) {
        Some(point) => {
            set.insert(point);
            true
        }
        None => false,
    }
}

/// Whether the first point is neither right of nor below the last.
fn are_corners(first: Point, last: Point) -> bool
    ensures { result ≡ (nat_le first.column last.column && nat_le first.row last.row) }
{
    first.col() <= last.col() && first.row() <= last.row()
}

/// Adds the points of the rectangle from the first to the last point to the set. Returns whether the board has it.
fn add_rectangle(size: Size, first: &[u8], last: &[u8], set: &mut PointSet) -> bool
    requires first { length first.now ≡ 2 }
    requires last { length last.now ≡ 2 }
    ensures { Adds size (points_named size (first.now ++ 58 ∷ last.now)) result set.old set.new }
{
    prove!(size.area() > 0);
    let Some(upper) = sgf_point(size, first) else {
        return false;
    };
    let Some(lower) = sgf_point(size, last) else {
        return false;
    };
    if are_corners(upper, lower) {
        add_inside(size, upper, lower, set);
        true
    } else {
        false
    }
}

/// Adds the points of a value to the set. Returns whether it names any.
fn add_named(size: Size, value: &[u8], set: &mut PointSet) -> bool
    ensures { Adds size (points_named size (trim value.now)) result set.old set.new }
{
    let value = trim(value);
    match value {
        [_, _] => add_point(size, value, set),
        [_, _, b':', _, _] => add_rectangle(size, &value[..2], &value[3..], set),
        _ => false,
    }
}

/// The points that the values of AB, AW, AE, TR or SQ stand for (SGF FF[4], "Compressed point lists"): points and rectangles, each
/// point once. `None` if a value names no point.
pub(crate) fn read_points(size: Size, values: &[Bytes]) -> Option<PointSet>
    ensures value { option_map (map (number_of size)) result ≡ points_of size values.now }
    ensures on_board { IfSome result (λ s. All (IsOn size) s) }
{
    prove!(size.area() > 0);
    let mut set = PointSet::new();
    for value in values {
        if !add_named(size, value.as_slice(), &mut set) {
            return None;
        }
    }
    Some(set)
}

/// The points of a property whose values have been found good. Bad values are ignored.
pub fn points_at(size: Size, name: &[u8], node: &SgfNode) -> PointSet
    ensures value { map (number_of size) result ≡ points_at size name.now node.now }
    ensures on_board { All (IsOn size) result }
{
    match read_points(size, values_at(name, node)) {
        Some(points) => points,
        None => PointSet::new(),
    }
}

/// Every point of the board.
pub fn all_points(size: Size) -> PointSet
    ensures value { map (number_of size) result ≡ points size }
    ensures on_board { All (IsOn size) result }
{
    let mut set = PointSet::new();
    for number in 0..size.area() {
        set.insert(size.point_at(number));
    }
    set
}
