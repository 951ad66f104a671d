//! The eyes of a chain that some stones enclose.

ghost use Rattle.std.specs.Prelude.{◌≢◌, ◌*◌, IsTrue, IfSome, IfNone};
ghost use Rattle.go_points.specs.declared.Cell.TheVariants.{Stone};
ghost use Rattle.go_points.specs.Grid.{cell_at, side_of};
ghost use Rattle.go_points.specs.Place.{Place, IsOn, number_of};
ghost use Rattle.go_points.specs.Points.{holds_place};
ghost use Rattle.go_chains.specs.Joined.{IsChainOf};
ghost use Rattle.pass_alive.specs.Sets.{these, IsNear};
ghost use Rattle.pass_alive.specs.Private.Areas.{areas_in, AreNoEyes, HasSides, AreSides, IsEyeArea, IsFreePlace, IsEyeOutside, IsNoEye, TwoEyeAreas, TwoEyeSets};

use crate::sets::put_in;
use crate::spread::look_at;
use go_chains::ChainBoard;
use go_points::{Colour, MAX_POINTS, Point, PointSet};

/// The area of the point, if it is an eye of the chain that these stones enclose. The points of areas that are none are kept, so
/// that none is looked at twice.
fn eye_at(
    board: &ChainBoard,
    colour: Colour,
    stones: &PointSet,
    chain: &PointSet,
    failed: &mut PointSet,
    point: Point,
) -> Option<PointSet>
    requires on { IsOn (side_of board.now) point }
    requires inside { cell_at board.now (number_of (side_of board.now) point) ≢ Stone colour }
    requires failed { AreNoEyes (side_of board.now) (areas_in colour board.now)
        (these (side_of board.now) stones.now) (these (side_of board.now) chain.now) failed.old }
    ensures some { IfSome result
        (λ s. IsChainOf (side_of board.now) (areas_in colour board.now)
        (number_of (side_of board.now) point) s
        × IsEyeArea (side_of board.now) (areas_in colour board.now)
        (these (side_of board.now) stones.now)
        (IsNear (side_of board.now) (these (side_of board.now) chain.now))
        (number_of (side_of board.now) point)) }
    ensures none { IfNone result
        (IsEyeArea (side_of board.now) (areas_in colour board.now)
        (these (side_of board.now) stones.now)
        (IsNear (side_of board.now) (these (side_of board.now) chain.now))
        (number_of (side_of board.now) point) → ⊥) }
    ensures failed { AreNoEyes (side_of board.now) (areas_in colour board.now)
        (these (side_of board.now) stones.now) (these (side_of board.now) chain.now) failed.new }
{
    let mut area = PointSet::new();
    area.insert(point);
    let mut left = area;
    while let Some(next) = left.first() {
        if !look_at(
            board, colour, stones, chain, failed, &mut area, &mut left, next,
        ) {
            put_in(failed, &area);
            return None;
        }
        prove!(area.len() <= MAX_POINTS);
    }
    Some(area)
}

/// Adds the empty points that are adjacent to the point.
fn add_sides(board: &ChainBoard, sides: &mut PointSet, point: Point)
    requires { IsOn (side_of board.now) point }
    ensures { HasSides (side_of board.now) board.now (number_of (side_of board.now) point)
        sides.old sides.new }
{
    let neighbours = point.neighbours(board.size());
    for neighbour in neighbours.as_slice() {
        if board.cell(*neighbour).is_empty() {
            sides.insert(*neighbour);
        }
    }
}

/// The empty points that are adjacent to the chain.
fn sides_of(board: &ChainBoard, chain: &PointSet) -> PointSet
    requires { (p : Place) → IsTrue (holds_place chain.now p) → IsOn (side_of board.now) p }
    ensures { AreSides (side_of board.now) board.now chain.now result }
{
    let mut sides = PointSet::new();
    for stone in chain.iter() {
        add_sides(board, &mut sides, stone);
    }
    sides
}

/// An eye of the chain with one of these points that is not in the last of the sets.
fn eye_outside(
    board: &ChainBoard,
    colour: Colour,
    sides: &PointSet,
    stones: &PointSet,
    chain: &PointSet,
    known: &PointSet,
) -> Option<PointSet>
    requires { (p : Place) → IsTrue (holds_place sides.now p)
        → IsFreePlace (side_of board.now) board.now p }
    ensures some { IfSome result
        (λ s. IsEyeOutside (side_of board.now) board.now (areas_in colour board.now)
        (these (side_of board.now) stones.now) (these (side_of board.now) chain.now)
        (these (side_of board.now) known.now) s) }
    ensures none { IfNone result ((p : Place) → IsTrue (holds_place sides.now p)
        → IsNoEye (side_of board.now) (areas_in colour board.now)
        (these (side_of board.now) stones.now) (these (side_of board.now) chain.now)
        (these (side_of board.now) known.now) (number_of (side_of board.now) p)) }
{
    let mut failed = PointSet::new();
    for point in sides.iter() {
        if !known.has(point) {
            if let Some(eye) = eye_at(board, colour, stones, chain, &mut failed, point) {
                return Some(eye);
            }
        }
    }
    None
}

/// Whether the chain has two eyes that these stones enclose.
pub(crate) fn has_two_eyes(
    board: &ChainBoard,
    colour: Colour,
    stones: &PointSet,
    chain: &PointSet,
) -> bool
    requires { (p : Place) → IsTrue (holds_place chain.now p) → IsOn (side_of board.now) p }
    ensures sound { IsTrue result → TwoEyeSets (side_of board.now) board.now
        (areas_in colour board.now) (these (side_of board.now) stones.now)
        (IsNear (side_of board.now) (these (side_of board.now) chain.now)) }
    ensures complete { TwoEyeAreas (side_of board.now) board.now
        (areas_in colour board.now) (these (side_of board.now) stones.now)
        (IsNear (side_of board.now) (these (side_of board.now) chain.now)) → IsTrue result }
{
    let sides = sides_of(board, chain);
    let Some(first) = eye_outside(board, colour, &sides, stones, chain, &PointSet::new()) else {
        return false;
    };
    eye_outside(board, colour, &sides, stones, chain, &first).is_some()
}
