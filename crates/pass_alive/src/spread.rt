//! How an area is found: from one point, each point that is met is looked at once.

ghost use Rattle.std.specs.Prelude.{◌≢◌, ◌*◌, ℕ, IsTrue, IsFalse};
ghost use Rattle.go_points.specs.declared.Cell.TheVariants.{Stone};
ghost use Rattle.go_points.specs.Grid.{adjacent, cell_at, side_of};
ghost use Rattle.go_points.specs.Place.{IsOn, number_of};
ghost use Rattle.go_points.specs.Points.{without_place};
ghost use Rattle.pass_alive.specs.Sets.{these, IsNear};
ghost use Rattle.pass_alive.specs.Private.Areas.{areas_in, HasMet, IsPoint, IsBesidePoint, IsMetOrWall, IsGap, IsEyeArea, AreNoEyes};

use crate::sets::is_near;
use go_chains::ChainBoard;
use go_points::{Colour, Point, PointSet};

/// Meets a point beside the area: puts it into the area, unless it is a stone of the colour. Returns whether it is no such stone,
/// or one of these.
fn meet(
    board: &ChainBoard,
    colour: Colour,
    stones: &PointSet,
    area: &mut PointSet,
    left: &mut PointSet,
    point: Point,
) -> bool
    requires { IsOn (side_of board.now) point }
    ensures met { HasMet (IsPoint (side_of board.now) colour board.now point)
        area.old left.old area.new left.new }
    ensures closed { IsTrue result → IsMetOrWall (side_of board.now) colour board.now
        (these (side_of board.now) stones.now) area.new (number_of (side_of board.now) point) }
    ensures gap { IsFalse result → IsGap colour board.now (these (side_of board.now) stones.now)
        (number_of (side_of board.now) point) }
{
    if board.cell(point).is_stone_of(colour) {
        return stones.has(point);
    }
    if area.has(point) {
        return true;
    }
    area.insert(point);
    left.insert(point);
    true
}

/// Meets the points beside a point of the area. Returns whether each of them is no stone of the colour, or one of these.
fn meet_around(
    board: &ChainBoard,
    colour: Colour,
    stones: &PointSet,
    area: &mut PointSet,
    left: &mut PointSet,
    point: Point,
) -> bool
    requires { IsOn (side_of board.now) point }
    ensures met { HasMet (IsBesidePoint (side_of board.now) colour board.now
        (number_of (side_of board.now) point)) area.old left.old area.new left.new }
    ensures closed { IsTrue result → (r : ℕ)
        → IsTrue (adjacent (side_of board.now) (number_of (side_of board.now) point) r)
        → IsMetOrWall (side_of board.now) colour board.now
        (these (side_of board.now) stones.now) area.new r }
    ensures gap { IsFalse result → (r : ℕ)
        × IsTrue (adjacent (side_of board.now) (number_of (side_of board.now) point) r)
        × IsGap colour board.now (these (side_of board.now) stones.now) r }
{
    let neighbours = point.neighbours(board.size());
    for neighbour in neighbours.as_slice() {
        if !meet(board, colour, stones, area, left, *neighbour) {
            return false;
        }
    }
    true
}

/// Looks at a point of the area. Returns whether the area can still be an eye of the chain that these stones enclose: the point is
/// near the chain, its neighbours are in the area or among the stones, and no area with this point has failed.
pub(crate) fn look_at(
    board: &ChainBoard,
    colour: Colour,
    stones: &PointSet,
    chain: &PointSet,
    failed: &PointSet,
    area: &mut PointSet,
    left: &mut PointSet,
    point: Point,
) -> bool
    requires on { IsOn (side_of board.now) point }
    requires inside { cell_at board.now (number_of (side_of board.now) point) ≢ Stone colour }
    requires failed { AreNoEyes (side_of board.now) (areas_in colour board.now)
        (these (side_of board.now) stones.now) (these (side_of board.now) chain.now) failed.now }
    ensures met { HasMet (IsBesidePoint (side_of board.now) colour board.now
        (number_of (side_of board.now) point))
        area.old (without_place left.old point) area.new left.new }
    ensures near { IsTrue result → IsNear (side_of board.now)
        (these (side_of board.now) chain.now) (number_of (side_of board.now) point) }
    ensures closed { IsTrue result → (r : ℕ)
        → IsTrue (adjacent (side_of board.now) (number_of (side_of board.now) point) r)
        → IsMetOrWall (side_of board.now) colour board.now
        (these (side_of board.now) stones.now) area.new r }
    ensures fails { IsFalse result → IsEyeArea (side_of board.now) (areas_in colour board.now)
        (these (side_of board.now) stones.now)
        (IsNear (side_of board.now) (these (side_of board.now) chain.now))
        (number_of (side_of board.now) point) → ⊥ }
{
    left.remove(point);
    if failed.has(point) || !is_near(board.size(), point, chain) {
        return false;
    }
    meet_around(board, colour, stones, area, left, point)
}
