//! The points beside some points, and the stones among them.

ghost use Rattle.std.specs.Prelude.{ℕ, IsTrue};
ghost use Rattle.go_points.specs.Grid.{side_of};
ghost use Rattle.go_points.specs.Place.{Place, IsOn, number_of};
ghost use Rattle.go_points.specs.Points.{holds_place};
ghost use Rattle.pass_alive.specs.Sets.{these, IsNear};
ghost use Rattle.pass_alive.specs.Private.Areas.{HasAround, HasStonesAround, HasStonesNear};

use go_chains::ChainBoard;
use go_points::{Point, PointSet};

/// Adds the points that are adjacent to the point.
fn add_around(board: &ChainBoard, set: &mut PointSet, point: Point)
    requires { IsOn (side_of board.now) point }
    ensures { HasAround (side_of board.now) (number_of (side_of board.now) point)
        set.old set.new }
{
    let neighbours = point.neighbours(board.size());
    for neighbour in neighbours.as_slice() {
        set.insert(*neighbour);
    }
}

/// The points that are adjacent to one of these.
pub(crate) fn all_around(board: &ChainBoard, points: &PointSet) -> PointSet
    requires { (p : Place) → IsTrue (holds_place points.now p) → IsOn (side_of board.now) p }
    ensures on_board { (p : Place) → IsTrue (holds_place result p) → IsOn (side_of board.now) p }
    ensures all { (q : ℕ) → IsNear (side_of board.now) (these (side_of board.now) points.now) q
        → IsTrue (these (side_of board.now) result q) }
{
    let mut found = PointSet::new();
    for point in points.iter() {
        add_around(board, &mut found, point);
    }
    found
}

/// Adds those of these stones that are adjacent to the point, but for what is in the set `late`.
fn add_stones_around(
    board: &ChainBoard,
    set: &mut PointSet,
    stones: &PointSet,
    late: &PointSet,
    point: Point,
)
    requires { IsOn (side_of board.now) point }
    ensures { HasStonesAround (side_of board.now) stones.now late.now
        (number_of (side_of board.now) point) set.old set.new }
{
    let neighbours = point.neighbours(board.size());
    for neighbour in neighbours.as_slice() {
        if stones.has(*neighbour) && !late.has(*neighbour) {
            set.insert(*neighbour);
        }
    }
}

/// Adds those of these stones that are adjacent to one of the points, but for what is in the set `late`.
pub(crate) fn add_stones_near(
    board: &ChainBoard,
    set: &mut PointSet,
    stones: &PointSet,
    late: &PointSet,
    points: &PointSet,
)
    requires { (p : Place) → IsTrue (holds_place points.now p) → IsOn (side_of board.now) p }
    ensures { HasStonesNear (side_of board.now) stones.now late.now points.now set.old set.new }
{
    for point in points.iter() {
        add_stones_around(board, set, stones, late, point);
    }
}
