//! Whether points are beside an empty point that is not in some set.

ghost use Rattle.std.specs.Prelude.{◌*◌, ◌↔◌, IsTrue};
ghost use Rattle.go_points.specs.Grid.{side_of};
ghost use Rattle.go_points.specs.Place.{Place, IsOn, number_of};
ghost use Rattle.go_points.specs.Points.{holds_place};
ghost use Rattle.pass_alive.specs.Sets.{these};
ghost use Rattle.pass_alive.specs.Private.Areas.{IsBesideFree};

use go_chains::ChainBoard;
use go_points::{Point, PointSet};

/// Whether the point is adjacent to an empty point that is not in the set.
pub(crate) fn is_beside_free(board: &ChainBoard, set: &PointSet, point: Point) -> bool
    requires { IsOn (side_of board.now) point }
    ensures { IsTrue result ↔ IsBesideFree (side_of board.now) board.now
        (these (side_of board.now) set.now) (number_of (side_of board.now) point) }
{
    let neighbours = point.neighbours(board.size());
    for neighbour in neighbours.as_slice() {
        if board.cell(*neighbour).is_empty() && !set.has(*neighbour) {
            return true;
        }
    }
    false
}

/// Whether one of the points is adjacent to an empty point that is not in the set.
pub(crate) fn are_beside_free(board: &ChainBoard, set: &PointSet, points: &PointSet) -> bool
    requires { (p : Place) → IsTrue (holds_place points.now p) → IsOn (side_of board.now) p }
    ensures { IsTrue result ↔ ((p : Place) × IsTrue (holds_place points.now p)
        × IsBesideFree (side_of board.now) board.now
        (these (side_of board.now) set.now) (number_of (side_of board.now) p)) }
{
    for point in points.iter() {
        if is_beside_free(board, set, point) {
            return true;
        }
    }
    false
}
